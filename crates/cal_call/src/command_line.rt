//! A whole command line, served.
ghost use Rattle.std.specs.Prelude.{◌≡◌, ◌≢◌, ◌≤◌, length, Some, IfOk, IfErr, OnErr};
ghost use Rattle.std.specs.Process.{exit_status};
ghost use Rattle.cal_base.specs.Change.{change_of};
ghost use Rattle.cal_call.specs.Ends.{Serves, Tells, fault_of};
ghost use Rattle.cal_call.specs.Faults.{fault_line, status_of};
ghost use Rattle.cal_call.specs.Tasks.{LeavesInput, tasked};

use crate::help::{HELP, VERSION};
use crate::outcome::{Ended, end};
use crate::showing::show;
use crate::{Outcome, WordsEnd, about, run};
use cal_base::{Clock, Gate, Sink, Source};
use cal_run::Prober;
use std::alloc::Global;
use std::hash::RandomState;
use std::process::ExitCode;
use std::thread::Threads;

/// Serves a command line, or refuses it where its words can't be had, and gives the status. What it
/// is lent besides is for `run`.
pub fn serve<
    R: Threads + Sync,
    S: Source,
    W: Sink,
    E: Sink,
    K: Clock + Send + Drop,
    G: Gate + Sync,
    P: Prober + Sync,
>(
    rt: &R,
    alloc: Global,
    hashers: RandomState,
    words: Result<Vec<String>, WordsEnd>,
    input: &mut S,
    output: &mut W,
    errors: &mut E,
    clocks: &mut Vec<K>,
    gate: &G,
    probes: &P,
) -> ExitCode
    requires { 64 ≤ length clocks.old.items }
    ensures served { IfOk words (λ words. Serves HELP.now VERSION.now words.items
        (exit_status result)
        (change_of S.left S.faults input.old input.new)
        (change_of W.written W.faults output.old output.new)
        (change_of E.written E.faults errors.old errors.new)
        K.given clocks.old.items clocks.new.items) }

    // Words that can't be had.
    ensures refused { IfErr words (λ end. exit_status result ≡ status_of (Some (fault_of end))) }
    ensures told { IfErr words (λ end. Tells (fault_line (fault_of end))
        (change_of E.written E.faults errors.old errors.new)) }
    ensures input { OnErr words (input.new ≡ input.old) }
    ensures unasked { OnErr words (clocks.new.items ≡ clocks.old.items) }

    // What is left as it was.
    ensures unread { IfOk words (λ words. LeavesInput (tasked words.items) → input.new ≡ input.old) }
    ensures output { exit_status result ≢ 0 → exit_status result ≢ 1 → exit_status result ≢ 6
        → output.new ≡ output.old }
    ensures errors { exit_status result ≡ 0 → errors.new ≡ errors.old }
{
    let outcome = match words {
        Ok(words) => answer(
            rt,
            alloc,
            hashers,
            words.as_slice(),
            input,
            output,
            errors,
            clocks,
            gate,
            probes,
        ),
        Err(why) => end(errors, Ended::without_journal(alloc, Some(why.fault()))),
    };
    ExitCode::from(outcome.status)
}

/// Shows the text that the words ask for, or runs their command.
fn answer<
    R: Threads + Sync,
    S: Source,
    W: Sink,
    E: Sink,
    K: Clock + Send + Drop,
    G: Gate + Sync,
    P: Prober + Sync,
>(
    rt: &R,
    alloc: Global,
    hashers: RandomState,
    words: &[String],
    input: &mut S,
    output: &mut W,
    errors: &mut E,
    clocks: &mut Vec<K>,
    gate: &G,
    probes: &P,
) -> Outcome
    requires { 64 ≤ length clocks.old.items }
    ensures served { Serves HELP.now VERSION.now words.now result.status
        (change_of S.left S.faults input.old input.new)
        (change_of W.written W.faults output.old output.new)
        (change_of E.written E.faults errors.old errors.new)
        K.given clocks.old.items clocks.new.items }
    ensures input { LeavesInput (tasked words.now) → input.new ≡ input.old }
    ensures output { result.status ≢ 0 → result.status ≢ 1 → result.status ≢ 6
        → output.new ≡ output.old }
    ensures errors { result.status ≡ 0 → errors.new ≡ errors.old }
{
    match about(words) {
        Some(text) => end(
            errors,
            Ended::without_journal(alloc, show(text, output).err()),
        ),
        None => run(
            rt, alloc, hashers, words, input, output, errors, clocks, gate, probes,
        ),
    }
}
