//! The top call: it does what the words of `watch` ask for.
ghost use Rattle.std.specs.Prelude.{◌≡◌, false, Ok, IfOk, IfErr, IfNone, IsErr};
ghost use Rattle.std.specs.Result.{result_err};
ghost use Rattle.cal_base.specs.Change.{Change, change_of};
ghost use Rattle.cal_call.specs.Causes.{BytesDecide, ReadsInput};
ghost use Rattle.cal_call.specs.Ends.{Tells};
ghost use Rattle.cal_call.specs.Faults.{report_of, status_of, writes};
ghost use Rattle.cal_call.specs.Refusals.{no_journal};
ghost use Rattle.cal_ql.specs.Valid.{IsValidQuery};
ghost use Rattle.cal_query.specs.Layout.{IsLayoutWhere};
ghost use Rattle.cal_watch.specs.Named.{conditions_of};
ghost use Rattle.cal_call_watch.specs.Answers.{Answers, Causes, WritesInFront};
ghost use Rattle.cal_call_watch.specs.Tasks.{as_query, task_of, tasked};

use crate::{TriggerName, WatchCommand, read_watch_words};
use cal_base::{Sink, Source};
use cal_call::{Ended, Fault, INPUT_LIMIT, InputKind, Outcome, asked_query, end, show};
use cal_lawful::first_broken_law;
use cal_ql::Query;
use cal_query::RowsEnd;
use cal_seeds::Seeds;
use cal_trigger::{Triggers, conditions_in_front_law};
use cal_value::Text;
use cal_watch::watched_text;
use std::alloc::Global;

/// Does what the words of `watch` ask for: it reads the input, a stream, to its end, makes the whole
/// text of the query's answer over the rows that the trigger lets through, and only then writes it
/// on the output; where it does less, the fault says why, and its line is put on `errors`. The
/// trigger is asked about a row as it was read, before LET. What is asked first is refused first:
/// the words, then the text of the query, then reading, then the stream, then writing; memory may be
/// refused at any point before the first byte is written. The outcome's journal has nothing.
///
/// It takes time in the bytes of the input and the text. A trigger is asked once about each node of
/// its name, and about each row's immediates of its name. What the stream chooses is hashed by
/// the seeds.
pub fn run_watch<S: Source, W: Sink, E: Sink>(
    alloc: Global,
    seeds: Seeds,
    words: &[String],
    input: &mut S,
    output: &mut W,
    errors: &mut E,
    triggers: &Triggers,
) -> Outcome
    ensures status { result.status ≡ status_of result.fault }
    ensures told { Tells (report_of result.fault)
        (change_of E.written E.faults errors.old errors.new) }

    // The text was written whole, or the fault has its cause.
    ensures answers { Answers (tasked words.now) (change_of S.left S.faults input.old input.new)
        (change_of W.written W.faults output.old output.new) result.fault }

    // Without LET it is what `query` writes with the trigger's conditions in front of WHERE's.
    ensures in_front { WritesInFront (tasked words.now)
        (change_of S.left S.faults input.old input.new)
        (change_of W.written W.faults output.old output.new) result.fault }

    // An input that tells its bytes and doesn't fail decides the fault as it does that of `query`,
    // but for want of memory.
    ensures decided { BytesDecide (as_query (tasked words.now))
        (change_of S.left S.faults input.old input.new)
        (change_of W.written W.faults output.old output.new) result.fault }

    // What is left as it was, and empty.
    ensures input { IsErr (tasked words.now) → input.new ≡ input.old }
    ensures output { writes result.fault ≡ false → output.new ≡ output.old }
    ensures journal { result.journal ≡ no_journal }
    ensures errors { IfNone result.fault (errors.new ≡ errors.old) }
{
    first_broken_law();
    conditions_in_front_law();
    let fault = watch(alloc, seeds, words, input, output, triggers);
    end(errors, Ended::without_journal(alloc, fault))
}

/// Does what the words ask for, and gives the fault where it does less.
fn watch<S: Source, W: Sink>(
    alloc: Global,
    seeds: Seeds,
    words: &[String],
    input: &mut S,
    output: &mut W,
    triggers: &Triggers,
) -> Option<Fault>
    ensures answers { Answers (tasked words.now) (change_of S.left S.faults input.old input.new)
        (change_of W.written W.faults output.old output.new) result }
    ensures input { IsErr (tasked words.now) → input.new ≡ input.old }
    ensures output { writes result ≡ false → output.new ≡ output.old }
{
    match read_watch_words(words) {
        Ok(command) => watch_by(alloc, seeds, words, command, input, output, triggers).err(),
        Err(word) => Some(Fault::Usage { word }),
    }
}

/// Reads the text of the query, then the stream, and writes the layout of the answer.
fn watch_by<S: Source, W: Sink>(
    alloc: Global,
    seeds: Seeds,
    words: &[String],
    command: WatchCommand,
    input: &mut S,
    output: &mut W,
    triggers: &Triggers,
) -> Result<(), Fault>
    ensures answers { Answers (task_of words.now (Ok command))
        (change_of S.left S.faults input.old input.new)
        (change_of W.written W.faults output.old output.new) (result_err result) }
    ensures input { IsErr (task_of words.now (Ok command)) → input.new ≡ input.old }
    ensures output { writes (result_err result) ≡ false → output.new ≡ output.old }
{
    match asked_query(alloc, words, command.q) {
        Ok(query) => answer(
            alloc,
            seeds,
            &query,
            command.trigger,
            input,
            output,
            triggers,
        ),
        Err(fault) => Err(fault),
    }
}

/// Writes the layout of a query's answer over the rows that a trigger lets through.
fn answer<S: Source, W: Sink>(
    alloc: Global,
    seeds: Seeds,
    query: &Query,
    name: TriggerName,
    input: &mut S,
    output: &mut W,
    triggers: &Triggers,
) -> Result<(), Fault>
    requires { IsValidQuery query.now }
    ensures answers { Answers (Ok (record { trigger = name; query = query.now }))
        (change_of S.left S.faults input.old input.new)
        (change_of W.written W.faults output.old output.new) (result_err result) }
    ensures output { writes (result_err result) ≡ false → output.new ≡ output.old }
{
    let text = layout(alloc, seeds, query, name, input, triggers)?;
    show(text.as_str(), output)
}

/// The layout of a query's answer over the rows that a trigger lets through.
fn layout<S: Source>(
    alloc: Global,
    seeds: Seeds,
    query: &Query,
    name: TriggerName,
    input: &mut S,
    triggers: &Triggers,
) -> Result<Text, Fault>
    requires { IsValidQuery query.now }
    ensures read { IfOk result (λ text. ReadsInput
        (change_of S.left S.faults input.old input.new)
        (λ bytes. IsLayoutWhere (conditions_of name) query.now bytes text)) }

    // The cause lies in the input, whatever becomes of the output.
    ensures caused { IfErr result (λ fault. (output : Change)
        → Causes (record { trigger = name; query = query.now })
        (change_of S.left S.faults input.old input.new) output fault) }
{
    match watched_text(alloc, seeds, input, INPUT_LIMIT, query, name, triggers) {
        Ok(text) => Ok(text),
        Err(RowsEnd::BadLine { line, kind }) => Err(Fault::BadInput {
            line,
            kind: InputKind::Stream(kind),
        }),
        Err(RowsEnd::ReadFault) => Err(Fault::ReadFault),
        Err(RowsEnd::TooLong) => Err(Fault::TooLong),
        Err(RowsEnd::OutOfMemory) => Err(Fault::OutOfMemory),
    }
}
