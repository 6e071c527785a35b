//! How a call ended.
ghost use Rattle.std.specs.Prelude.{◌≡◌, IfNone};
ghost use Rattle.cal_base.specs.Change.{change_of};
ghost use Rattle.cal_call.specs.Ends.{Tells};
ghost use Rattle.cal_call_files.specs.Faults.{report_of, status_of};

use crate::{FilesFault, put_files_fault};
use cal_base::Sink;

/// How a call ended: the status of the program, and why it isn't 0.
#[derive(Clone, Copy, Debug)]
pub struct FilesOutcome {
    pub status: u8,
    pub fault: Option<FilesFault>,
}

/// Ends a call: puts the line of its fault, if it has one, on `errors`.
pub(crate) fn end<E: Sink>(errors: &mut E, fault: Option<FilesFault>) -> FilesOutcome
    ensures fault { result.fault ≡ fault }
    ensures status { result.status ≡ status_of fault }
    ensures told { Tells (report_of fault)
        (change_of E.written E.faults errors.old errors.new) }
    ensures errors { IfNone fault (errors.new ≡ errors.old) }
{
    if let Some(fault) = &fault {
        put_files_fault(errors, fault);
    }
    let status = match &fault {
        Some(fault) => fault.status(),
        None => 0,
    };
    FilesOutcome { status, fault }
}
