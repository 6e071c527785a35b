ghost use Rattle.std.specs.Prelude.{◌<◌, ◌≤◌, IfOk, IfErr, IfSome, IsErr, length};
ghost use Rattle.cal_base.specs.Change.{change_of};
ghost use Rattle.cal_base.specs.ReadEnds.{ReadsAll, StopsAt};

use crate::{Failed, Source, read_within};
use std::alloc::{AllocError, Global};
use thiserror::Error;

/// Why a source wasn't read to its end.
#[derive(Clone, Copy, Debug, PartialEq, Eq, Error)]
pub enum ReadEnd {
    #[error("a read failed")]
    ReadFault,
    #[error("the input is too long")]
    TooLong,
    #[error("out of memory")]
    OutOfMemory,
}

impl From<Failed> for ReadEnd {
    ghost use Rattle.std.specs.Prelude.{◌≡◌};
    ghost use Rattle.cal_base.specs.declared.reading.ReadEnd.TheVariants.{ReadFault};

    ghost from_gives = { λ _ e. e ≡ ReadFault };

    fn from(_failed: Failed) -> ReadEnd {
        ReadEnd::ReadFault
    }
}

impl From<AllocError> for ReadEnd {
    ghost use Rattle.std.specs.Prelude.{◌≡◌};
    ghost use Rattle.cal_base.specs.declared.reading.ReadEnd.TheVariants.{OutOfMemory};

    ghost from_gives = { λ _ e. e ≡ OutOfMemory };

    fn from(_error: AllocError) -> ReadEnd {
        ReadEnd::OutOfMemory
    }
}

/// How many bytes are asked for at once.
const PIECE: usize = 65_536;

/// Gives all that is left, where that is at most `limit` bytes. Time and memory are in the bytes'
/// number, and 64 KiB beside them.
pub fn read_all<S: Source>(alloc: Global, input: &mut S, limit: u64) -> Result<Vec<u8>, ReadEnd>
    // All that was left, to the end.
    ensures all { IfOk result (λ bytes.
        ReadsAll limit (change_of S.left S.faults input.old input.new) bytes.items) }

    // Why it isn't given, and how much was taken then.
    ensures refused { IfErr result (λ end.
        StopsAt end limit (change_of S.left S.faults input.old input.new)) }

    // More than the limit is never given.
    ensures over { IfSome (S.left input.old) (λ left. limit < length left → IsErr result) }
    ensures later { S.faults input.old ≤ S.faults input.new }
{
    let mut buffer = vec![in alloc; 0u8; PIECE]?;
    take_all(alloc, input, limit, buffer.as_mut_slice())
}

/// The same, through a buffer.
fn take_all<S: Source>(
    alloc: Global,
    input: &mut S,
    limit: u64,
    buffer: &mut [u8],
) -> Result<Vec<u8>, ReadEnd>
    requires { 0 < length buffer.old }
    ensures all { IfOk result (λ bytes.
        ReadsAll limit (change_of S.left S.faults input.old input.new) bytes.items) }
    ensures refused { IfErr result (λ end.
        StopsAt end limit (change_of S.left S.faults input.old input.new)) }
    ensures later { S.faults input.old ≤ S.faults input.new }
{
    let mut taken = Vec::new(alloc);
    loop {
        let count = read_within(input, limit - taken.len() as u64, buffer)?;
        if count == 0 {
            return Ok(taken);
        }
        taken.extend_from_slice(&buffer[..count])?;
    }
}
