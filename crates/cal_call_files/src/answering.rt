//! What a query prints of the files of these names.
ghost use Rattle.std.specs.Prelude.{◌≡◌, ◌<◌, ◌≤◌, ◌^◌, IfErr, IfOk, Some, false, length, map};
ghost use Rattle.cal_base.specs.Change.{Change};
ghost use Rattle.cal_files.specs.FilesEnds.{StopsAt};
ghost use Rattle.cal_files.specs.OpenerChange.{OpenerChange, opener_change};
ghost use Rattle.cal_ql.specs.Valid.{IsValidQuery};
ghost use Rattle.cal_call.specs.Causes.{input_limit};
ghost use Rattle.cal_call_files.specs.Answers.{Causes, IsText, Reads, StopsText};
ghost use Rattle.cal_call_files.specs.Faults.{writes};
ghost use Rattle.cal_call_files.specs.Tasks.{FilesTask};

use crate::FilesFault;
use cal_call::INPUT_LIMIT;
use cal_files::{FilesEnd, Opener, read_files};
use cal_multi::{ManyEnd, answer_many};
use cal_ql::Query;
use cal_query::lay_out;
use cal_seeds::Seeds;
use cal_value::{OutOfMemory, Text};
use std::alloc::Global;
use std::thread::Threads;

/// Opens and reads the files of these names, and gives what a query prints of the rows of all.
pub(crate) fn text_of_files<R: Threads + Sync, O: Opener>(
    rt: &R,
    alloc: Global,
    seeds: Seeds,
    query: &Query,
    names: &[Text],
    opener: &mut O,
) -> Result<Text, FilesFault>
    requires query { IsValidQuery query.now }
    requires few { length names.now ≤ 64 }
    requires openings { O.openings opener.old < 2 ^ 63 }
    ensures read { IfOk result (λ text. Reads
        (opener_change O.content O.openings O.open_faults O.read_faults opener.old opener.new)
        names.now (λ files. IsText query.now files text)) }

    // The cause lies in the files, whatever becomes of the output.
    ensures caused { IfErr result (λ fault. (output : Change)
        → Causes (record { names = names.now; query = query.now })
        (opener_change O.content O.openings O.open_faults O.read_faults opener.old opener.new)
        output fault) }
    ensures unwritten { IfErr result (λ fault. writes (Some fault) ≡ false) }
{
    let files = match read_files(alloc, opener, names, INPUT_LIMIT) {
        Ok(files) => files,
        Err(end) => return Err(fault_of(end)),
    };
    let text = text_of(rt, alloc, seeds, query, files.as_slice());
    drop(files);
    text
}

/// The fault of files that can't be read.
fn fault_of(end: FilesEnd) -> FilesFault
    ensures caused { (task : FilesTask) (opener : OpenerChange) (output : Change)
        → StopsAt end input_limit opener task.names → Causes task opener output result }
    ensures unwritten { writes (Some result) ≡ false }
{
    match end {
        FilesEnd::OpenFault { file } => FilesFault::OpenFault { file },
        FilesEnd::ReadFault { file } => FilesFault::ReadFault { file },
        FilesEnd::TooLong { file } => FilesFault::TooLong { file },
        FilesEnd::OutOfMemory => FilesFault::OutOfMemory,
    }
}

/// What a query prints of the rows of files that were read.
fn text_of<R: Threads + Sync>(
    rt: &R,
    alloc: Global,
    seeds: Seeds,
    query: &Query,
    files: &[Vec<u8>],
) -> Result<Text, FilesFault>
    requires query { IsValidQuery query.now }
    requires few { length files.now ≤ 64 }
    ensures text { IfOk result (λ text.
        IsText query.now (map (λ file. file.items) files.now) text) }
    ensures refused { IfErr result (λ fault.
        StopsText (map (λ file. file.items) files.now) fault) }
{
    let answer = match answer_many(rt, alloc, seeds, query, files) {
        Ok(answer) => answer,
        Err(ManyEnd::BadFile { file, line, kind }) => {
            return Err(FilesFault::BadInput { file, line, kind });
        }
        Err(ManyEnd::OutOfMemory) => return Err(FilesFault::OutOfMemory),
    };
    let text = lay_out(alloc, query.format, &answer);
    drop(answer);
    match text {
        Ok(text) => Ok(text),
        Err(OutOfMemory) => Err(FilesFault::OutOfMemory),
    }
}
