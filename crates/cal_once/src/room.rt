/// The room that a seat's arena has for a record.
#[derive(Clone, Copy)]
pub enum Room {
    /// A draft begins behind the used words of this number's arena.
    Free { number: u64, used: u64 },
    /// So many words are used, and the record needs so many.
    Full { used: u64, need: u64 },
}
