use cal_value::Seq;

/// What a line was answered.
#[derive(Clone, Copy, Debug, PartialEq, Eq)]
pub enum Reply {
    Done,
    /// An `end` of another attribute than that of the slot's last value. `top` is the last value's
    /// attribute, a place in the script's attributes.
    Mismatch { top: u32 },
    /// An `end` where no value is open.
    NotOpen,
    /// The slot holds as many values as it can.
    TooDeep,
    /// As many slots hold values as can.
    SlotsFull,
    /// A `flush` whose table is in the book.
    Merged,
    /// A `flush` that met the turn of the thread `holder`. The table stays the thread's.
    Busy { holder: u32 },
}

/// What a run notes of a line.
#[derive(Clone, Copy, Debug, PartialEq, Eq)]
pub struct LineNote {
    pub reply: Reply,
    /// How many operations of the history the thread has seen at the line's end.
    pub seen: u64,
    /// The clock's reading, where the line took one.
    pub reading: Option<u64>,
}

/// What a run notes of a thread.
#[derive(Debug, Drop)]
pub struct ThreadNote {
    /// The reading before the first line, where one was taken.
    pub start: Option<u64>,
    /// A note of each line.
    pub lines: Seq<LineNote>,
}

/// A line that is placed in the history: its thread, from 0, and its number in it, from 1.
#[derive(Clone, Copy, Debug, PartialEq, Eq)]
pub struct Placed {
    pub thread: u32,
    pub line: u32,
}

/// What a run notes.
#[derive(Debug, Drop)]
pub struct Journal {
    /// Whether the clock is the machine's; else it is the script's.
    pub real: bool,
    /// The history, in order.
    pub ops: Seq<Placed>,
    pub threads: Seq<ThreadNote>,
}

/// The input's lines on which the parts of a journal stand, counted from 1. They are 0 for a journal
/// that wasn't read.
#[derive(Debug, Drop)]
pub struct JournalMarks {
    /// Of each `op`.
    pub ops: Seq<u64>,
    /// Of each `start` and `line` line, in the order of the text.
    pub rows: Seq<RowMark>,
    /// Of `end`.
    pub end: u64,
}

/// Where a `start` or `line` line stands, and what it says it is of.
#[derive(Clone, Copy, Debug, PartialEq, Eq)]
pub struct RowMark {
    pub line: u64,
    /// The thread that is written there.
    pub thread: u64,
    /// The number of the line that is written there, and 0 for a `start`.
    pub number: u64,
}

/// A journal that was read, and where it stands.
#[derive(Debug, Drop)]
pub struct JournalText {
    pub journal: Journal,
    pub marks: JournalMarks,
}
