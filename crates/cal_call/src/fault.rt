//! Why a call wrote less than it was asked for, and the status of each fault.
ghost use Rattle.std.specs.Prelude.{◌≡◌, Some};
ghost use Rattle.cal_call.specs.Faults.{input_kind_name, status_of};

use cal_journal::JournalKind;
use cal_ql::QueryKind;
use cal_read::StreamKind;
use cal_script::ScriptKind;

/// Why a call wrote less than it was asked for, or that lines of its run were refused.
#[derive(Clone, Copy, Debug, PartialEq, Eq)]
pub enum Fault {
    /// The text was written whole, and so many lines of the run were refused.
    LinesRefused { lines: u64 },
    /// The words break the word rule: the place, from 0, of the first that does, or the number of
    /// words where one is missing.
    Usage { word: u32 },
    /// The input's first fault. All its lines are counted, from 1.
    BadInput { line: u64, kind: InputKind },
    /// The first fault of a query's text. The place is its byte, from 0.
    BadQuery { place: u64, kind: QueryKind },
    ReadFault,
    WriteFault,
    /// The input has more than 268,435,456 bytes.
    TooLong,
    OutOfMemory,
}

/// What is wrong with a line of an input.
#[derive(Clone, Copy, Debug, PartialEq, Eq)]
pub enum InputKind {
    Script(ScriptKind),
    Journal(JournalKind),
    Stream(StreamKind),
}

impl InputKind {
    /// Its name, as a fault's line has it.
    pub fn name(self) -> &'static str
        ensures { result.now ≡ input_kind_name self }
    {
        match self {
            InputKind::Script(kind) => kind.name(),
            InputKind::Journal(kind) => kind.name(),
            InputKind::Stream(kind) => kind.name(),
        }
    }
}

impl Fault {
    /// The status that the program ends with.
    pub fn status(&self) -> u8
        ensures { result ≡ status_of (Some self.now) }
    {
        match self {
            Fault::LinesRefused { .. } => 1,
            Fault::Usage { .. } => 2,
            Fault::BadInput { .. } => 3,
            Fault::BadQuery { .. } => 4,
            Fault::ReadFault => 5,
            Fault::WriteFault => 6,
            Fault::OutOfMemory => 7,
            Fault::TooLong => 8,
        }
    }
}
