ghost use Rattle.std.specs.Prelude.{◌≤◌, length, IfSome};
ghost use Rattle.cal_read.specs.Usual.{IsNumberAt};

// digits may follow a number up to this one
const ROOM: u64 = 100_000_000_000_000_000;

/// A number, and where its digits end.
#[derive(Clone, Copy, Debug)]
pub(crate) struct NumberAt {
    pub(crate) number: u64,
    pub(crate) end: usize,
}

/// The number that the digits at a place write, if a few stand there: its value and its end are
/// found in one go.
pub(crate) fn number_at(line: &str, start: usize) -> Option<NumberAt>
    requires { start ≤ length line.now }
    ensures { IfSome result (λ at. IsNumberAt line.now start at.end at.number) }
{
    let bytes = line.as_bytes();
    let mut place = start;
    let mut number = 0u64;
    while place < bytes.len() && bytes[place].is_ascii_digit() {
        if number > ROOM {
            return None;
        }
        number = number * 10 + u64::from(bytes[place] - b'0');
        place += 1;
    }
    if place == start {
        return None;
    }
    Some(NumberAt { number, end: place })
}
