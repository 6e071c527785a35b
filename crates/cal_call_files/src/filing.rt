//! The top call: it does what the words of `files` ask for.
ghost use Rattle.std.specs.Prelude.{◌≡◌, ◌<◌, ◌≤◌, ◌^◌, ◌⊎◌, false, Err, IfErr, IfNone, IfOk};
ghost use Rattle.std.specs.Prelude.{IsErr, Ok, length};
ghost use Rattle.std.specs.Result.{result_err};
ghost use Rattle.cal_base.specs.Change.{change_of};
ghost use Rattle.cal_call.specs.Ends.{Tells};
ghost use Rattle.cal_files.specs.OpenerChange.{opener_change};
ghost use Rattle.cal_ql.specs.Valid.{IsValidQuery};
ghost use Rattle.cal_call_files.specs.Answers.{Answers};
ghost use Rattle.cal_call_files.specs.Deciding.{FilesDecide};
ghost use Rattle.cal_call_files.specs.Faults.{report_of, status_of, writes};
ghost use Rattle.cal_call_files.specs.Tasks.{by_text, task_of, tasked};
ghost use Rattle.cal_call_files.specs.Words.{names_of};
ghost use Rattle.cal_ql.specs.Tokens.{Fault};

use crate::answering::text_of_files;
use crate::names::names_of;
use crate::outcome::end;
use crate::{FilesCommand, FilesFault, FilesOutcome, read_files_words};
use cal_base::Sink;
use cal_call::text_at;
use cal_files::Opener;
use cal_ql::{Query, QueryEnd, parse_query};
use cal_seeds::Seeds;
use cal_value::{OutOfMemory, Text};
use std::alloc::Global;
use std::thread::Threads;

/// Does what the words of `files` ask for: it opens and reads the files that they name, each a
/// stream, to their ends and in their order, then folds them side by side, makes the whole text of
/// the query's answer over the rows of all, and only then writes it on the output; where it does
/// less, the fault says why, and its line is put on `errors`. What is asked first is refused first:
/// the words, then the text of the query, then the files in their order, each opened and read, then
/// the streams in their order, then writing; memory may be refused at any point before the first
/// byte is written.
///
/// It takes time in the bytes of the files and the text. All files are held at once, with what the
/// query keeps of each. What the streams choose is hashed by the seeds.
pub fn run_files<R: Threads + Sync, O: Opener, W: Sink, E: Sink>(
    rt: &R,
    alloc: Global,
    seeds: Seeds,
    words: &[String],
    opener: &mut O,
    output: &mut W,
    errors: &mut E,
) -> FilesOutcome
    requires { O.openings opener.old < 2 ^ 63 }
    ensures status { result.status ≡ status_of result.fault }
    ensures told { Tells (report_of result.fault)
        (change_of E.written E.faults errors.old errors.new) }

    // The text was written whole, or the fault has its cause.
    ensures answers { Answers (tasked words.now)
        (opener_change O.content O.openings O.open_faults O.read_faults opener.old opener.new)
        (change_of W.written W.faults output.old output.new) result.fault }

    // Files that are told, and don't fail, decide the fault, but for want of memory.
    ensures decided { FilesDecide (tasked words.now)
        (opener_change O.content O.openings O.open_faults O.read_faults opener.old opener.new)
        (change_of W.written W.faults output.old output.new) result.fault }

    // What is left as it was.
    ensures opener { IsErr (tasked words.now) → opener.new ≡ opener.old }
    ensures output { writes result.fault ≡ false → output.new ≡ output.old }
    ensures errors { IfNone result.fault (errors.new ≡ errors.old) }
{
    let fault = file(rt, alloc, seeds, words, opener, output).err();
    end(errors, fault)
}

/// Does what the words ask for, or gives the fault where it does less.
fn file<R: Threads + Sync, O: Opener, W: Sink>(
    rt: &R,
    alloc: Global,
    seeds: Seeds,
    words: &[String],
    opener: &mut O,
    output: &mut W,
) -> Result<(), FilesFault>
    requires { O.openings opener.old < 2 ^ 63 }
    ensures answers { Answers (tasked words.now)
        (opener_change O.content O.openings O.open_faults O.read_faults opener.old opener.new)
        (change_of W.written W.faults output.old output.new) (result_err result) }
    ensures opener { IsErr (tasked words.now) → opener.new ≡ opener.old }
    ensures output { writes (result_err result) ≡ false → output.new ≡ output.old }
{
    match read_files_words(words) {
        Ok(command) => file_by(rt, alloc, seeds, words, command, opener, output),
        Err(word) => Err(FilesFault::Usage { word }),
    }
}

/// Reads the text of the query, then the files, and writes the layout of the answer.
fn file_by<R: Threads + Sync, O: Opener, W: Sink>(
    rt: &R,
    alloc: Global,
    seeds: Seeds,
    words: &[String],
    command: FilesCommand,
    opener: &mut O,
    output: &mut W,
) -> Result<(), FilesFault>
    requires openings { O.openings opener.old < 2 ^ 63 }
    requires few { length (names_of words.now) ≤ 64 }
    ensures answers { Answers (task_of words.now (Ok command))
        (opener_change O.content O.openings O.open_faults O.read_faults opener.old opener.new)
        (change_of W.written W.faults output.old output.new) (result_err result) }
    ensures opener { IsErr (task_of words.now (Ok command)) → opener.new ≡ opener.old }
    ensures output { writes (result_err result) ≡ false → output.new ≡ output.old }
{
    let query = asked_query(alloc, words, command)?;
    let Ok(names) = names_of(alloc, words) else {
        drop(query);
        return Err(FilesFault::OutOfMemory);
    };
    let answered = answer(rt, alloc, seeds, &query, names.as_slice(), opener, output);
    drop(names);
    drop(query);
    answered
}

/// The query that the words ask for, or why its text is refused.
fn asked_query(alloc: Global, words: &[String], command: FilesCommand) -> Result<Query, FilesFault>
    ensures asked { IfOk result (λ query. task_of words.now (Ok command)
        ≡ Ok (record { names = names_of words.now; query = query })) }
    ensures valid { IfOk result (λ query. IsValidQuery query) }
    ensures refused { IfErr result (λ fault. (fault ≡ FilesFault.OutOfMemory) ⊎ ((found : Fault)
        × (task_of words.now (Ok command) ≡ Err (by_text found))
        × (fault ≡ FilesFault.BadQuery found.place found.kind))) }
{
    match parse_query(alloc, text_at(words, command.q)) {
        Ok(query) => Ok(query),
        Err(QueryEnd::BadQuery { place, kind }) => Err(FilesFault::BadQuery { place, kind }),
        Err(QueryEnd::OutOfMemory) => Err(FilesFault::OutOfMemory),
    }
}

/// Writes what a query prints of the files of these names.
fn answer<R: Threads + Sync, O: Opener, W: Sink>(
    rt: &R,
    alloc: Global,
    seeds: Seeds,
    query: &Query,
    names: &[Text],
    opener: &mut O,
    output: &mut W,
) -> Result<(), FilesFault>
    requires query { IsValidQuery query.now }
    requires few { length names.now ≤ 64 }
    requires openings { O.openings opener.old < 2 ^ 63 }
    ensures answers { Answers (Ok (record { names = names.now; query = query.now }))
        (opener_change O.content O.openings O.open_faults O.read_faults opener.old opener.new)
        (change_of W.written W.faults output.old output.new) (result_err result) }
    ensures output { writes (result_err result) ≡ false → output.new ≡ output.old }
{
    let text = text_of_files(rt, alloc, seeds, query, names, opener)?;
    match output.put(text.as_str().as_bytes()) {
        Ok(()) => Ok(()),
        Err(_) => Err(FilesFault::WriteFault),
    }
}
