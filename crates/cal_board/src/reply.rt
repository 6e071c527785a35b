use cal_words::TreeFull;

/// What a board says to a line. Only `Done` changes it.
#[derive(Clone, Copy, Debug, PartialEq, Eq)]
pub enum BoardReply {
    Done,
    /// The slot's last value has another attribute, of this number.
    Mismatch { top: u32 },
    /// The slot holds no value.
    NotOpen,
    /// The shared tree made no node for the value. Only a board over that tree answers this.
    TreeFull(TreeFull),
    /// The slot holds 128 values.
    TooDeep,
    /// The slot holds no value, and 64 others do.
    SlotsFull,
}
