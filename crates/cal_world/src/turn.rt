//! A line of a thread, as its journal tells of it.
ghost use Rattle.std.specs.Prelude.{◌≡◌, ◌<◌, length, slice_index_or};
ghost use Rattle.cal_world.specs.Turns.{is_of_kind};
ghost use Rattle.cal_world.specs.declared.turn.Turn as turn_of;

use cal_run::is_process_line;
use cal_script::{Line, LineNote, Script};

/// A line with its note.
#[derive(Clone, Copy, Debug, PartialEq, Eq)]
pub struct Turn {
    pub thread: u32,
    /// The line's number in its thread, from 1.
    pub number: u32,
    pub line: Line,
    pub note: LineNote,
    /// How many operations the line before it had seen.
    pub before: u64,
}

/// Whether a line is a process line, or, where that is asked, isn't.
pub(crate) fn is_of_kind(script: &Script, shared: bool, turn: Turn) -> bool
    ensures { result ≡ is_of_kind script.now shared turn }
{
    if shared {
        is_process_line(script, turn.line)
    } else {
        !is_process_line(script, turn.line)
    }
}

/// The line at a place.
pub(crate) fn turn_at(turns: &[Turn], place: usize) -> Turn
    requires { place < length turns.now }
    ensures { (d : turn_of.Turn) → result ≡ slice_index_or turns.now place d }
{
    turns[place]
}
