//! The top call: it does what the words of `live` ask for.
ghost use Rattle.std.specs.Prelude.{◌≡◌, ◌≤◌, false, length, IfErr, IfNone, IfOk, IsErr, Ok};
ghost use Rattle.std.specs.Prelude.{Some};
ghost use Rattle.cal_base.specs.Change.{Change, change_of};
ghost use Rattle.cal_call.specs.Causes.{Answers, BytesDecide, Causes, ReadsInput};
ghost use Rattle.cal_call.specs.Clocks.{AskedBy, AskedClocks};
ghost use Rattle.cal_call.specs.Ends.{Tells};
ghost use Rattle.cal_call.specs.Faults.{report_of, status_of, writes};
ghost use Rattle.cal_call.specs.Inputs.{IsTextOf, Makes};
ghost use Rattle.cal_call.specs.Refusals.{no_journal, refused_lines};
ghost use Rattle.cal_call.specs.Tasks.{ThreadsTask};
ghost use Rattle.cal_call.specs.declared.words.RunText.TheVariants as run_text;
ghost use Rattle.cal_call_live.specs.Quiet.{IsQuiet};
ghost use Rattle.cal_call_live.specs.Tasks.{tasked};
ghost use Rattle.cal_call_live.specs.Words.{IsRoom};
ghost use Rattle.cal_ran.specs.Told.{HaveToldAll};
ghost use Rattle.cal_run.specs.Lawful.{Lawful};
ghost use Rattle.cal_script.specs.Reading.{IsValidScript};

use crate::{LiveCommand, read_live_words};
use cal_base::{Clock, Gate, Sink, Source};
use cal_call::{Ended, Fault, Made, Outcome, RunText, end, made_of, read_input, write_made};
use cal_lawful::first_broken_law;
use cal_live_run::run_live_script;
use cal_replayed::write_ended;
use cal_run::Prober;
use cal_script::Script;
use cal_seeds::Seeds;
use cal_valid::valid_script_law;
use cal_value::OutOfMemory;
use std::alloc::Global;
use std::hash::RandomState;
use std::sync::Wait;
use std::thread::Threads;

/// Does what the words of `live` ask for: as `replay` it reads the input, a script, to its end,
/// runs its threads, and writes the text of the run's records; but what the threads flush goes into
/// a mailbox with the room that the words name, and one thread more collects it while they run, so
/// that no flush meets another thread's turn. Where it does less, or a line was refused, the fault
/// says why, and its line is put on `errors`. What is asked first is refused first, as by `replay`.
///
/// That it returns isn't promised, least of all where a thread can't be made: the threads wait
/// under `wait` for room in the mailbox, and the collector for what they send. What else is lent
/// serves as it does in `run`; it takes the time of `replay`, and memory for the parts in the
/// mailbox.
pub fn run_live<
    R: Threads + Sync,
    Q: Wait + Sync,
    S: Source,
    W: Sink,
    E: Sink,
    K: Clock + Send + Drop,
    G: Gate + Sync,
    P: Prober + Sync,
>(
    rt: &R,
    wait: &Q,
    alloc: Global,
    hashers: RandomState,
    words: &[String],
    input: &mut S,
    output: &mut W,
    errors: &mut E,
    clocks: &mut Vec<K>,
    gate: &G,
    probes: &P,
) -> Outcome
    requires { 64 ≤ length clocks.old.items }
    ensures status { result.status ≡ status_of result.fault }
    ensures told { Tells (report_of result.fault)
        (change_of E.written E.faults errors.old errors.new) }

    // The text of the input was written whole, or the fault has its cause, as by `replay`.
    ensures answers { Answers (tasked words.now) (change_of S.left S.faults input.old input.new)
        (change_of W.written W.faults output.old output.new) result.journal result.fault }

    // An input that tells its bytes and doesn't fail decides the answer, but for want of memory.
    ensures decided { BytesDecide (tasked words.now) (change_of S.left S.faults input.old input.new)
        (change_of W.written W.faults output.old output.new) result.fault }

    // The clocks were asked for just the readings in the journal.
    ensures asked { AskedClocks K.given (tasked words.now) result.journal result.fault
        clocks.old.items clocks.new.items }

    // No flush met another thread's turn.
    ensures quiet { IsQuiet result.journal }

    // What is left as it was, and empty.
    ensures input { IsErr (tasked words.now) → input.new ≡ input.old }
    ensures output { writes result.fault ≡ false → output.new ≡ output.old }
    ensures journal { writes result.fault ≡ false → result.journal ≡ no_journal }
    ensures errors { IfNone result.fault (errors.new ≡ errors.old) }
{
    first_broken_law();
    let ended = live(
        rt, wait, alloc, hashers, words, input, output, clocks, gate, probes,
    );
    end(errors, ended)
}

/// Does what the words ask for, and gives the fault where it does less.
fn live<
    R: Threads + Sync,
    Q: Wait + Sync,
    S: Source,
    W: Sink,
    K: Clock + Send + Drop,
    G: Gate + Sync,
    P: Prober + Sync,
>(
    rt: &R,
    wait: &Q,
    alloc: Global,
    hashers: RandomState,
    words: &[String],
    input: &mut S,
    output: &mut W,
    clocks: &mut Vec<K>,
    gate: &G,
    probes: &P,
) -> Ended
    requires { 64 ≤ length clocks.old.items }
    ensures answers { Answers (tasked words.now) (change_of S.left S.faults input.old input.new)
        (change_of W.written W.faults output.old output.new) result.journal result.fault }
    ensures asked { AskedClocks K.given (tasked words.now) result.journal result.fault
        clocks.old.items clocks.new.items }
    ensures quiet { IsQuiet result.journal }
    ensures input { IsErr (tasked words.now) → input.new ≡ input.old }
    ensures output { writes result.fault ≡ false → output.new ≡ output.old }
    ensures journal { writes result.fault ≡ false → result.journal ≡ no_journal }
{
    match read_live_words(words) {
        Ok(command) => live_by(
            rt, wait, alloc, hashers, command, input, output, clocks, gate, probes,
        ),
        Err(word) => Ended::without_journal(alloc, Some(Fault::Usage { word })),
    }
}

/// Reads a script, runs its threads beside a collector, and writes the text of the run's records.
fn live_by<
    R: Threads + Sync,
    Q: Wait + Sync,
    S: Source,
    W: Sink,
    K: Clock + Send + Drop,
    G: Gate + Sync,
    P: Prober + Sync,
>(
    rt: &R,
    wait: &Q,
    alloc: Global,
    hashers: RandomState,
    command: LiveCommand,
    input: &mut S,
    output: &mut W,
    clocks: &mut Vec<K>,
    gate: &G,
    probes: &P,
) -> Ended
    requires clocks { 64 ≤ length clocks.old.items }
    requires room { IsRoom command.room }
    ensures answers { Answers (Ok (ThreadsTask run_text.Records command.real))
        (change_of S.left S.faults input.old input.new)
        (change_of W.written W.faults output.old output.new) result.journal result.fault }
    ensures asked { AskedBy K.given result.journal result.fault
        clocks.old.items clocks.new.items }
    ensures quiet { IsQuiet result.journal }
    ensures output { writes result.fault ≡ false → output.new ≡ output.old }
    ensures journal { writes result.fault ≡ false → result.journal ≡ no_journal }
{
    match made_run(
        rt, wait, alloc, hashers, command, input, clocks, gate, probes,
    ) {
        Ok(made) => {
            let fault = write_made(&made, output);
            Ended {
                fault,
                journal: made.journal,
            }
        }
        Err(fault) => Ended::without_journal(alloc, Some(fault)),
    }
}

/// Makes the text of the run of the script that the input has left.
fn made_run<
    R: Threads + Sync,
    Q: Wait + Sync,
    S: Source,
    K: Clock + Send + Drop,
    G: Gate + Sync,
    P: Prober + Sync,
>(
    rt: &R,
    wait: &Q,
    alloc: Global,
    hashers: RandomState,
    command: LiveCommand,
    input: &mut S,
    clocks: &mut Vec<K>,
    gate: &G,
    probes: &P,
) -> Result<Made, Fault>
    requires clocks { 64 ≤ length clocks.old.items }
    requires room { IsRoom command.room }
    ensures read { IfOk result (λ made. ReadsInput (change_of S.left S.faults input.old input.new)
        (λ bytes. Makes (ThreadsTask run_text.Records command.real) bytes made.text made.journal)) }
    ensures refused { IfOk result (λ made. made.refused ≡ refused_lines made.journal) }
    ensures quiet { IfOk result (λ made. IsQuiet made.journal) }
    ensures told { IfOk result
        (λ made. HaveToldAll K.given made.journal clocks.old.items clocks.new.items) }

    // The cause lies in the input, whatever becomes of the output.
    ensures caused { IfErr result (λ fault. (output : Change)
        → Causes (ThreadsTask run_text.Records command.real)
        (change_of S.left S.faults input.old input.new) output no_journal fault) }
    ensures asked { IfErr result (λ fault. AskedBy K.given no_journal (Some fault)
        clocks.old.items clocks.new.items) }
    ensures unwritten { IfErr result (λ fault. writes (Some fault) ≡ false) }
{
    let seeds = Seeds::of(&hashers);
    let script = read_input(alloc, seeds, RunText::Records, command.real, input)?;
    match run_to_text(
        rt, wait, alloc, hashers, &script, command, clocks, gate, probes,
    ) {
        Ok(made) => Ok(made),
        Err(OutOfMemory) => Err(Fault::OutOfMemory),
    }
}

/// Runs a script beside a collector, and makes the text of its records. An `Err` is want of memory:
/// some lines may have run, and clocks may be lost.
fn run_to_text<
    R: Threads + Sync,
    Q: Wait + Sync,
    K: Clock + Send + Drop,
    G: Gate + Sync,
    P: Prober + Sync,
>(
    rt: &R,
    wait: &Q,
    alloc: Global,
    hashers: RandomState,
    script: &Script,
    command: LiveCommand,
    clocks: &mut Vec<K>,
    gate: &G,
    probes: &P,
) -> Result<Made, OutOfMemory>
    requires script { IsValidScript script.now }
    requires clocks { 64 ≤ length clocks.old.items }
    requires room { IsRoom command.room }
    ensures lawful { IfOk result (λ made. Lawful script.now made.journal) }
    ensures real { IfOk result (λ made. made.journal.real ≡ command.real) }
    ensures quiet { IfOk result (λ made. IsQuiet made.journal) }
    ensures text { IfOk result
        (λ made. IsTextOf run_text.Records script.now made.journal made.text) }
    ensures refused { IfOk result (λ made. made.refused ≡ refused_lines made.journal) }
    ensures told { IfOk result
        (λ made. HaveToldAll K.given made.journal clocks.old.items clocks.new.items) }
{
    valid_script_law();
    let real = command.real;
    let ended = run_live_script(
        rt,
        wait,
        alloc,
        hashers,
        script,
        real,
        clocks,
        gate,
        probes,
        command.room,
    )?;
    let replayed = write_ended(rt, alloc, script, ended)?;
    Ok(made_of(script, replayed))
}
