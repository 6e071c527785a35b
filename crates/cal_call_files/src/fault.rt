//! Why a call over many files wrote less than it was asked for, and the status of each fault.
ghost use Rattle.std.specs.Prelude.{◌≡◌, Some};
ghost use Rattle.cal_call_files.specs.Faults.{status_of};

use cal_ql::QueryKind;
use cal_read::StreamKind;

/// Why a call wrote less than it was asked for. A file is named by its place among the names, from
/// 0.
#[derive(Clone, Copy, Debug, PartialEq, Eq)]
pub enum FilesFault {
    /// The words break the word rule: the place, from 0, of the first that does, or the number of
    /// words where one is missing.
    Usage {
        word: u32,
    },
    /// The first file that has a first fault, and that fault. All its lines are counted, from 1.
    BadInput {
        file: u32,
        line: u64,
        kind: StreamKind,
    },
    /// The first fault of the query's text. The place is its byte, from 0.
    BadQuery {
        place: u64,
        kind: QueryKind,
    },
    /// A read of this file failed.
    ReadFault {
        file: u32,
    },
    WriteFault,
    OutOfMemory,
    /// The files up to this one have more than 268,435,456 bytes, and those before it have not.
    TooLong {
        file: u32,
    },
    /// This file can't be opened.
    OpenFault {
        file: u32,
    },
}

impl FilesFault {
    /// The status that the program ends with.
    pub fn status(&self) -> u8
        ensures { result ≡ status_of (Some self.now) }
    {
        match self {
            FilesFault::Usage { .. } => 2,
            FilesFault::BadInput { .. } => 3,
            FilesFault::BadQuery { .. } => 4,
            FilesFault::ReadFault { .. } => 5,
            FilesFault::WriteFault => 6,
            FilesFault::OutOfMemory => 7,
            FilesFault::TooLong { .. } => 8,
            FilesFault::OpenFault { .. } => 9,
        }
    }
}
