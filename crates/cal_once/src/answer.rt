/// What became of a record.
#[derive(Clone, Copy, Debug, PartialEq, Eq)]
pub enum Put {
    /// It is at this place. `fresh`: this call published it.
    Placed { place: u64, fresh: bool },
    /// Each slot holds another record.
    RowsFull,
    /// An empty slot was found, and the seat's arena has no room for the record.
    ArenaFull { used: u64, need: u64 },
}
