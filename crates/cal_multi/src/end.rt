//! Why files have no answer.

use cal_read::StreamKind;
use cal_value::OutOfMemory;
use thiserror::Error;

/// Why files have no answer. A file is named by its place, from 0.
#[derive(Clone, Copy, Debug, PartialEq, Eq, Error)]
pub enum ManyEnd {
    /// The first file that has a first fault, and that fault. All lines of a file are counted, from
    /// 1.
    #[error("file {file}: line {line}: {kind}")]
    BadFile {
        file: u32,
        line: u64,
        kind: StreamKind,
    },
    #[error("out of memory")]
    OutOfMemory,
}

impl From<OutOfMemory> for ManyEnd {
    ghost use Rattle.std.specs.Prelude.{◌≡◌};
    ghost use Rattle.cal_multi.specs.declared.end.ManyEnd.TheVariants as ends;

    ghost from_gives = { λ _ end. end ≡ ends.OutOfMemory };

    fn from(_error: OutOfMemory) -> ManyEnd {
        ManyEnd::OutOfMemory
    }
}
