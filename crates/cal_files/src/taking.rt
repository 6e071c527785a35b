//! The reading of one file, as much of it as may come.
ghost use Rattle.std.specs.Prelude.{◌≡◌, ◌<◌, ◌≤◌, IfOk, IfErr, length, take};
ghost use Rattle.std.specs.Io.{ReadsAtMost};
ghost use Rattle.std.specs.Io.KnownBytes.{IsAtEnd};
ghost use Rattle.cal_base.specs.Change.{change_of};
ghost use Rattle.cal_base.specs.ReadEnds.{ReadsAll, StopsAt};
ghost use Rattle.cal_base.specs.Told.{Takes};

use crate::Opener;
use cal_base::ReadEnd;
use std::alloc::Global;

/// One read of the open file, which may give at most so many bytes more, as `read_within` reads a
/// source.
fn read_piece<O: Opener>(opener: &mut O, allowed: u64, buffer: &mut [u8]) -> Result<usize, ReadEnd>
    requires { 0 < length buffer.old }
    ensures bound { ReadsAtMost result buffer.new }
    ensures within { IfOk result (λ n. n ≤ allowed) }
    ensures taken { IfOk result (λ n.
        Takes (O.left opener.old) (O.left opener.new) (take n buffer.new)) }
    ensures end { IfOk result (λ n. n ≡ 0 → IsAtEnd (O.left opener.old)) }
    ensures refused { IfErr result (λ end.
        StopsAt end allowed (change_of O.left O.read_faults opener.old opener.new)) }
    ensures later { O.read_faults opener.old ≤ O.read_faults opener.new }

    // It opens nothing.
    ensures opens { O.open_faults opener.new ≡ O.open_faults opener.old }
    ensures openings { O.openings opener.new ≡ O.openings opener.old }
    ensures content { O.content opener.new ≡ O.content opener.old }
{
    let most = allowed.saturating_add(1).min(buffer.len() as u64) as usize;
    let count = opener.read(&mut buffer[..most])?;
    if count as u64 > allowed {
        return Err(ReadEnd::TooLong);
    }
    Ok(count)
}

/// All that is left of the open file, where that is at most `allowed` bytes.
pub(crate) fn take_rest<O: Opener>(
    alloc: Global,
    opener: &mut O,
    allowed: u64,
    buffer: &mut [u8],
) -> Result<Vec<u8>, ReadEnd>
    requires { 0 < length buffer.old }
    ensures all { IfOk result (λ bytes. ReadsAll allowed
        (change_of O.left O.read_faults opener.old opener.new) bytes.items) }
    ensures refused { IfErr result (λ end.
        StopsAt end allowed (change_of O.left O.read_faults opener.old opener.new)) }
    ensures later { O.read_faults opener.old ≤ O.read_faults opener.new }

    // It opens nothing.
    ensures opens { O.open_faults opener.new ≡ O.open_faults opener.old }
    ensures openings { O.openings opener.new ≡ O.openings opener.old }
    ensures content { O.content opener.new ≡ O.content opener.old }
{
    let mut taken = Vec::new(alloc);
    loop {
        let count = read_piece(opener, allowed - taken.len() as u64, buffer)?;
        if count == 0 {
            return Ok(taken);
        }
        taken.extend_from_slice(&buffer[..count])?;
    }
}
