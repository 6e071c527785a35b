//! A run of a script from its start to its end.
ghost use Rattle.std.specs.Prelude.{◌≡◌, ◌≤◌, IfOk, length};
ghost use Rattle.cal_ran.specs.Ended.{IsEnded};
ghost use Rattle.cal_ran.specs.Told.{HaveToldAll};
ghost use Rattle.cal_script.specs.Reading.{IsValidScript};

use crate::ended::EndedRun;
use crate::ending::end_run;
use crate::running::run_all;
use cal_base::{Clock, Gate};
use cal_run::Prober;
use cal_script::Script;
use cal_start::Run;
use cal_valid::valid_script_law;
use cal_value::OutOfMemory;
use std::alloc::Global;
use std::hash::RandomState;
use std::thread::Threads;

/// Runs a script, each of its threads as a thread with the clock at its place, and gives what the
/// run leaves: the journal of what happened, and what its channels have taken. Readings come off
/// these clocks where `real` says so, else off the script's own. Where a thread can't be made, its
/// lines run in another's. An `Err` is want of memory: no journal is left, some lines may have run,
/// and clocks may be lost.
pub fn run_script<'a, R: Threads + Sync, P: Prober + Sync, K: Clock + Send + Drop, G: Gate + Sync>(
    rt: &R,
    alloc: Global,
    hashers: RandomState,
    script: &'a Script,
    real: bool,
    clocks: &mut Vec<K>,
    gate: &G,
    probes: &P,
) -> Result<EndedRun<'a>, OutOfMemory>
    requires script { IsValidScript script.now }
    requires clocks { length script.now.threads ≤ length clocks.old.items }
    ensures ended { IfOk result (IsEnded script.now) }
    ensures real { IfOk result (λ ended. ended.journal.real ≡ real) }
    ensures told { IfOk result
        (λ ended. HaveToldAll K.given ended.journal clocks.old.items clocks.new.items) }
{
    valid_script_law();
    let (run, mut first) = Run::new(alloc, hashers, script, real)?;
    let handed = run_all(rt, alloc, &run, &mut first, clocks, gate, probes)?;
    let ended = end_run::<P>(alloc, run, first, handed)?;
    Ok(ended)
}
