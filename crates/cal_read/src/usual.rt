ghost use Rattle.std.specs.Prelude.{◌≡◌, ◌==◌, ◌||◌, ◌≤◌, length, IfOk};
ghost use Rattle.cal_read.specs.Usual.{IsPlain, IsThere};

use crate::end::LineEnd;
use cal_value::{OutOfMemory, ValueFault};
use std::alloc::AllocFailed;

/// A line isn't written in the usual way, or memory ran out: it is read field by field.
#[derive(Clone, Copy, Debug)]
pub(crate) struct Unusual;

impl From<LineEnd> for Unusual {
    fn from(_end: LineEnd) -> Unusual {
        Unusual
    }
}

impl From<OutOfMemory> for Unusual {
    fn from(_error: OutOfMemory) -> Unusual {
        Unusual
    }
}

impl From<ValueFault> for Unusual {
    fn from(_fault: ValueFault) -> Unusual {
        Unusual
    }
}

impl<T: Drop> From<AllocFailed<T>> for Unusual {
    fn from(_error: AllocFailed<T>) -> Unusual {
        Unusual
    }
}

/// The place behind these bytes, where they stand at a place. At most eight bytes that a caller
/// knows are compared as one or two words.
pub(crate) fn behind(line: &str, place: usize, bytes: &[u8]) -> Result<usize, Unusual>
    requires { place ≤ length line.now }
    ensures { IfOk result (λ end. IsThere line.now place bytes.now end) }
{
    let rest = &line.as_bytes()[place..];
    if rest.starts_with(bytes) {
        Ok(place + bytes.len())
    } else {
        Err(Unusual)
    }
}

/// Where the text at a place ends: at the next byte that is written by an escape, or at the end.
pub(crate) fn plain_end(line: &str, start: usize) -> usize
    requires { start ≤ length line.now }
    ensures { IsPlain line.now start result }
{
    let bytes = line.as_bytes();
    let mut place = start;
    while place < bytes.len() && !is_special(bytes[place]) {
        place += 1;
    }
    place
}

fn is_special(byte: u8) -> bool
    ensures { result ≡ (byte == 10 || (byte == 92 || byte == 44 || byte == 61)) }
{
    byte == b'\n' || byte == b'\\' || byte == b',' || byte == b'='
}
