//! One step of one thread.

/// A step of a thread's line. A line's number is counted from 1.
#[derive(Clone, Copy, Debug, PartialEq, Eq)]
pub enum Event {
    /// A path that a board holds now gets its node, if it has none.
    Node { thread: u32 },
    /// A process line is placed at the history's end.
    Place { thread: u32, line: u32 },
    /// The thread has seen the whole history.
    Look { thread: u32, line: u32 },
    /// A flush line ends: the book has the thread's table, or the thread keeps it.
    Flush { thread: u32, line: u32 },
    /// Any other line ends: its snapshots are taken, and its change is made.
    Own { thread: u32, line: u32 },
}
