//! One read of a source that may give only so many bytes more.
ghost use Rattle.std.specs.Prelude.{◌≡◌, ◌≢◌, ◌<◌, ◌≤◌, IfOk, IfErr, length, take};
ghost use Rattle.std.specs.Io.{ReadsAtMost};
ghost use Rattle.std.specs.Io.KnownBytes.{IsAtEnd};
ghost use Rattle.cal_base.specs.Change.{change_of};
ghost use Rattle.cal_base.specs.ReadEnds.{StopsAt};
ghost use Rattle.cal_base.specs.Told.{Takes};

use crate::{ReadEnd, Source};

/// Moves the next bytes to the front of the buffer, where the source gives at most `allowed`, and
/// answers how many: none only at the end. One byte more than is allowed is taken at most, and then
/// the source is too long. It takes no memory.
pub fn read_within<S: Source>(
    input: &mut S,
    allowed: u64,
    buffer: &mut [u8],
) -> Result<usize, ReadEnd>
    requires { 0 < length buffer.old }
    ensures bound { ReadsAtMost result buffer.new }
    ensures within { IfOk result (λ n. n ≤ allowed) }
    ensures taken { IfOk result (λ n.
        Takes (S.left input.old) (S.left input.new) (take n buffer.new)) }
    ensures end { IfOk result (λ n. n ≡ 0 → IsAtEnd (S.left input.old)) }

    // Why it gives none, and how much was taken then.
    ensures refused { IfErr result (λ end.
        StopsAt end allowed (change_of S.left S.faults input.old input.new)) }
    ensures memory { result ≢ Err ReadEnd.OutOfMemory }
    ensures later { S.faults input.old ≤ S.faults input.new }
{
    let most = allowed.saturating_add(1).min(buffer.len() as u64) as usize;
    let window = &mut buffer[..most];
    let count = input.read(window)?;
    if count as u64 > allowed {
        return Err(ReadEnd::TooLong);
    }
    Ok(count)
}
