/// What became of a part.
#[derive(Debug, Drop)]
pub enum FlushAnswer<T> {
    /// It was merged.
    Merged,
    /// This thread held the turn. The part comes back.
    Busy { holder: u32, part: T },
    /// The turn was got, and given up for want of memory. The part comes back.
    OutOfMemory { part: T },
}
