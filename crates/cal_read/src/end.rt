ghost use Rattle.cal_read.specs.declared.end.StreamEnd.TheVariants as stream_ends;
ghost use Rattle.cal_read.specs.declared.end.LineEnd.TheVariants as line_ends;
ghost use Rattle.std.specs.Prelude.{◌≡◌};

use crate::StreamKind;
use cal_value::OutOfMemory;
use std::alloc::{AllocError, AllocFailed};
use thiserror::Error;

/// Why there are no records.
#[derive(Clone, Copy, Debug, PartialEq, Eq, Error)]
pub enum StreamEnd {
    /// The first line that goes wrong. All lines are counted, from 1.
    #[error("line {line}: {kind}")]
    BadLine { line: u64, kind: StreamKind },
    #[error("out of memory")]
    OutOfMemory,
}

impl From<OutOfMemory> for StreamEnd {
    ghost from_gives = { λ _ end. end ≡ stream_ends.OutOfMemory };

    fn from(_error: OutOfMemory) -> StreamEnd {
        StreamEnd::OutOfMemory
    }
}

impl From<AllocError> for StreamEnd {
    ghost from_gives = { λ _ end. end ≡ stream_ends.OutOfMemory };

    fn from(_error: AllocError) -> StreamEnd {
        StreamEnd::OutOfMemory
    }
}

/// Why a line isn't taken.
#[derive(Clone, Copy, Debug, PartialEq, Eq)]
pub(crate) enum LineEnd {
    Bad(StreamKind),
    OutOfMemory,
}

impl From<OutOfMemory> for LineEnd {
    ghost from_gives = { λ _ end. end ≡ line_ends.OutOfMemory };

    fn from(_error: OutOfMemory) -> LineEnd {
        LineEnd::OutOfMemory
    }
}

impl From<AllocError> for LineEnd {
    ghost from_gives = { λ _ end. end ≡ line_ends.OutOfMemory };

    fn from(_error: AllocError) -> LineEnd {
        LineEnd::OutOfMemory
    }
}

impl<T: Drop> From<AllocFailed<T>> for LineEnd {
    ghost from_gives = { λ _ end. end ≡ line_ends.OutOfMemory };

    fn from(_error: AllocFailed<T>) -> LineEnd {
        LineEnd::OutOfMemory
    }
}
