//! Why files were not all read.

use std::alloc::{AllocError, AllocFailed};
use thiserror::Error;

/// Why files weren't all read. A file is named by its place among the names, from 0.
#[derive(Clone, Copy, Debug, PartialEq, Eq, Error)]
pub enum FilesEnd {
    #[error("a file can't be opened")]
    OpenFault { file: u32 },
    #[error("a read failed")]
    ReadFault { file: u32 },
    #[error("the files are too long")]
    TooLong { file: u32 },
    #[error("out of memory")]
    OutOfMemory,
}

impl From<AllocError> for FilesEnd {
    ghost use Rattle.std.specs.Prelude.{◌≡◌};
    ghost use Rattle.cal_files.specs.declared.ends.FilesEnd.TheVariants.{OutOfMemory};

    ghost from_gives = { λ _ e. e ≡ OutOfMemory };

    fn from(_error: AllocError) -> FilesEnd {
        FilesEnd::OutOfMemory
    }
}

impl<T: Drop> From<AllocFailed<T>> for FilesEnd {
    ghost use Rattle.std.specs.Prelude.{◌≡◌};
    ghost use Rattle.cal_files.specs.declared.ends.FilesEnd.TheVariants.{OutOfMemory};

    ghost from_gives = { λ _ e. e ≡ OutOfMemory };

    fn from(_error: AllocFailed<T>) -> FilesEnd {
        FilesEnd::OutOfMemory
    }
}
