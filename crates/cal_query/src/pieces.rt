ghost use Rattle.std.specs.Prelude.{ℕ, ◌<◌, List, ◌++◌, length, OnOk, IfErr};
ghost use Rattle.cal_base.specs.Change.{change_of};
ghost use Rattle.cal_base.specs.ReadEnds.{ReadsAll, StopsAt};

use cal_base::{ReadEnd, Source, read_within};
use cal_value::OutOfMemory;
use std::alloc::Global;

/// Whoever is fed the bytes of an input, piece by piece.
pub(crate) trait Fed {
    ghost use Rattle.std.specs.Prelude.{ℕ, List};

    /// Whether it may be fed.
    ghost is_ready: { Self → Type 0 };

    /// Whether these bytes are what it has been fed.
    ghost has_read: { Self → List ℕ → Type 0 };

    /// What it is for, and whether it is for that.
    ghost About: { Type 0 };

    ghost is_about: { Self → About → Type 0 };

    /// Takes the next bytes. After an `Err` nothing is promised of it.
    fn feed(&mut self, piece: &[u8]) -> Result<(), OutOfMemory>
        requires { is_ready self.old }
        ensures ready { OnOk result (is_ready self.new) }
        ensures read { OnOk result ((front : List ℕ)
            → has_read self.old front → has_read self.new (front ++ piece.now)) }
        ensures about { OnOk result ((what : About) → is_about self.old what
            → is_about self.new what) };
}

/// How many bytes are asked for at once.
const PIECE: usize = 65_536;

/// Feeds all that is left, where that is at most `limit` bytes. It keeps none of the bytes but
/// 64 KiB at a time.
pub(crate) fn feed_all<S: Source, F: Fed>(
    alloc: Global,
    input: &mut S,
    limit: u64,
    fed: &mut F,
) -> Result<(), ReadEnd>
    requires { F.is_ready fed.old }
    ensures ready { OnOk result (F.is_ready fed.new) }

    // All that was left, to the end.
    ensures all { OnOk result ((bytes : List ℕ)
        × ReadsAll limit (change_of S.left S.faults input.old input.new) bytes
        × ((front : List ℕ) → F.has_read fed.old front → F.has_read fed.new (front ++ bytes))) }
    ensures about { OnOk result ((what : F.About) → F.is_about fed.old what
        → F.is_about fed.new what) }

    // Why it isn't read to its end, and how much was taken then.
    ensures refused { IfErr result (λ end.
        StopsAt end limit (change_of S.left S.faults input.old input.new)) }
{
    let mut buffer = vec![in alloc; 0u8; PIECE]?;
    feed_through(input, limit, fed, buffer.as_mut_slice())
}

/// The same, through a buffer.
fn feed_through<S: Source, F: Fed>(
    input: &mut S,
    limit: u64,
    fed: &mut F,
    buffer: &mut [u8],
) -> Result<(), ReadEnd>
    requires ready { F.is_ready fed.old }
    requires room { 0 < length buffer.old }
    ensures ready { OnOk result (F.is_ready fed.new) }
    ensures all { OnOk result ((bytes : List ℕ)
        × ReadsAll limit (change_of S.left S.faults input.old input.new) bytes
        × ((front : List ℕ) → F.has_read fed.old front → F.has_read fed.new (front ++ bytes))) }
    ensures about { OnOk result ((what : F.About) → F.is_about fed.old what
        → F.is_about fed.new what) }
    ensures refused { IfErr result (λ end.
        StopsAt end limit (change_of S.left S.faults input.old input.new)) }
{
    let mut total = 0u64;
    loop {
        let count = read_within(input, limit - total, buffer)?;
        if count == 0 {
            return Ok(());
        }
        let Ok(()) = fed.feed(&buffer[..count]) else {
            return Err(ReadEnd::OutOfMemory);
        };
        total += count as u64;
    }
}
