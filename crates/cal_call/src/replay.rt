//! `replay` and `journal`: a script whose threads are run, each as a thread.
ghost use Rattle.std.specs.Prelude.{◌≡◌, ◌≤◌, false, IfErr, IfOk, Ok, Some, length};
ghost use Rattle.cal_base.specs.Change.{Change, change_of};
ghost use Rattle.cal_ran.specs.Told.{HaveToldAll};
ghost use Rattle.cal_call.specs.Causes.{Answers, Causes, ReadsInput};
ghost use Rattle.cal_call.specs.Clocks.{AskedBy};
ghost use Rattle.cal_call.specs.Faults.{writes};
ghost use Rattle.cal_call.specs.Inputs.{Makes};
ghost use Rattle.cal_call.specs.Refusals.{no_journal, refused_lines};
ghost use Rattle.cal_call.specs.Tasks.{ThreadsTask};

use crate::made::{Made, write_made};
use crate::outcome::Ended;
use crate::script::read_input;
use crate::threads::run_in_threads;
use crate::{Fault, RunText};
use cal_base::{Clock, Gate, Sink, Source};
use cal_run::Prober;
use cal_seeds::Seeds;
use cal_value::OutOfMemory;
use std::alloc::Global;
use std::hash::RandomState;
use std::thread::Threads;

/// Reads a script, runs its threads, and writes this text of the run.
pub fn replay<
    R: Threads + Sync,
    P: Prober + Sync,
    K: Clock + Send + Drop,
    G: Gate + Sync,
    S: Source,
    W: Sink,
>(
    rt: &R,
    alloc: Global,
    hashers: RandomState,
    shown: RunText,
    real: bool,
    input: &mut S,
    output: &mut W,
    clocks: &mut Vec<K>,
    gate: &G,
    probes: &P,
) -> Ended
    requires { 64 ≤ length clocks.old.items }
    ensures answers { Answers (Ok (ThreadsTask shown real))
        (change_of S.left S.faults input.old input.new)
        (change_of W.written W.faults output.old output.new) result.journal result.fault }
    ensures asked { AskedBy K.given result.journal result.fault
        clocks.old.items clocks.new.items }
    ensures output { writes result.fault ≡ false → output.new ≡ output.old }
    ensures journal { writes result.fault ≡ false → result.journal ≡ no_journal }
{
    match made_run(rt, alloc, hashers, shown, real, input, clocks, gate, probes) {
        Ok(made) => {
            let fault = write_made(&made, output);
            Ended {
                fault,
                journal: made.journal,
            }
        }
        Err(fault) => Ended::without_journal(alloc, Some(fault)),
    }
}

/// Makes this text of the run of the script that the input has left.
fn made_run<R: Threads + Sync, P: Prober + Sync, K: Clock + Send + Drop, G: Gate + Sync, S: Source>(
    rt: &R,
    alloc: Global,
    hashers: RandomState,
    shown: RunText,
    real: bool,
    input: &mut S,
    clocks: &mut Vec<K>,
    gate: &G,
    probes: &P,
) -> Result<Made, Fault>
    requires { 64 ≤ length clocks.old.items }
    ensures read { IfOk result (λ made. ReadsInput (change_of S.left S.faults input.old input.new)
        (λ bytes. Makes (ThreadsTask shown real) bytes made.text made.journal)) }
    ensures refused { IfOk result (λ made. made.refused ≡ refused_lines made.journal) }
    ensures told { IfOk result
        (λ made. HaveToldAll K.given made.journal clocks.old.items clocks.new.items) }

    // The cause lies in the input, whatever becomes of the output.
    ensures caused { IfErr result (λ fault. (output : Change) → Causes (ThreadsTask shown real)
        (change_of S.left S.faults input.old input.new) output no_journal fault) }
    ensures asked { IfErr result (λ fault. AskedBy K.given no_journal (Some fault)
        clocks.old.items clocks.new.items) }
    ensures unwritten { IfErr result (λ fault. writes (Some fault) ≡ false) }
{
    let script = read_input(alloc, Seeds::of(&hashers), shown, real, input)?;
    match run_in_threads(
        rt, alloc, hashers, &script, shown, real, clocks, gate, probes,
    ) {
        Ok(made) => Ok(made),
        Err(OutOfMemory) => Err(Fault::OutOfMemory),
    }
}
