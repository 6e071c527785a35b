//! `query`: the answer of a query over a stream, laid out.
ghost use Rattle.std.specs.Prelude.{◌≡◌, false, Ok, IsErr, IfOk, IfErr};
ghost use Rattle.std.specs.Result.{result_err};
ghost use Rattle.cal_base.specs.Change.{Change, change_of};
ghost use Rattle.cal_ql.specs.Valid.{IsValidQuery};
ghost use Rattle.cal_call.specs.Causes.{Answers, Causes, ReadsInput};
ghost use Rattle.cal_call.specs.Faults.{writes};
ghost use Rattle.cal_call.specs.Inputs.{Makes};
ghost use Rattle.cal_call.specs.Refusals.{no_journal};
ghost use Rattle.cal_call.specs.Tasks.{QueryTask, task_of};

use crate::asking::asked_query;
use crate::showing::show;
use crate::{Command, Fault, INPUT_LIMIT, InputKind};
use cal_base::{Sink, Source};
use cal_ql::Query;
use cal_query::{RowsEnd, query_text};
use cal_seeds::Seeds;
use cal_value::Text;
use std::alloc::Global;

/// Reads the text of a query, then a stream, and writes the layout of the answer.
pub fn query<S: Source, W: Sink>(
    alloc: Global,
    seeds: Seeds,
    words: &[String],
    q: Option<u32>,
    join: bool,
    input: &mut S,
    output: &mut W,
) -> Result<(), Fault>
    ensures answers { Answers (task_of words.now (Command.Query q join))
        (change_of S.left S.faults input.old input.new)
        (change_of W.written W.faults output.old output.new) no_journal (result_err result) }
    ensures input { IsErr (task_of words.now (Command.Query q join)) → input.new ≡ input.old }
    ensures output { writes (result_err result) ≡ false → output.new ≡ output.old }
{
    match asked_query(alloc, words, q) {
        Ok(query) => answer(alloc, seeds, &query, join, input, output),
        Err(fault) => Err(fault),
    }
}

/// Writes the layout of a query's answer over the stream that the input has left.
fn answer<S: Source, W: Sink>(
    alloc: Global,
    seeds: Seeds,
    query: &Query,
    join: bool,
    input: &mut S,
    output: &mut W,
) -> Result<(), Fault>
    requires { IsValidQuery query.now }
    ensures answers { Answers (Ok (QueryTask query.now join))
        (change_of S.left S.faults input.old input.new)
        (change_of W.written W.faults output.old output.new) no_journal (result_err result) }
    ensures output { writes (result_err result) ≡ false → output.new ≡ output.old }
{
    let text = layout(alloc, seeds, query, join, input)?;
    show(text.as_str(), output)
}

/// The layout of a query's answer over the stream that the input has left.
fn layout<S: Source>(
    alloc: Global,
    seeds: Seeds,
    query: &Query,
    join: bool,
    input: &mut S,
) -> Result<Text, Fault>
    requires { IsValidQuery query.now }
    ensures read { IfOk result (λ text. ReadsInput
        (change_of S.left S.faults input.old input.new)
        (λ bytes. Makes (QueryTask query.now join) bytes text no_journal)) }

    // The cause lies in the input, whatever becomes of the output.
    ensures caused { IfErr result (λ fault. (output : Change)
        → Causes (QueryTask query.now join)
        (change_of S.left S.faults input.old input.new) output no_journal fault) }
{
    match query_text(alloc, seeds, input, INPUT_LIMIT, join, query) {
        Ok(text) => Ok(text),
        Err(RowsEnd::BadLine { line, kind }) => Err(Fault::BadInput {
            line,
            kind: InputKind::Stream(kind),
        }),
        Err(RowsEnd::ReadFault) => Err(Fault::ReadFault),
        Err(RowsEnd::TooLong) => Err(Fault::TooLong),
        Err(RowsEnd::OutOfMemory) => Err(Fault::OutOfMemory),
    }
}
