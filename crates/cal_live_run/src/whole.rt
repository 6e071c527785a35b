//! A run of a script from its start to its end, whose parts are collected while it runs.
ghost use Rattle.std.specs.Prelude.{◌≡◌, ◌≤◌, IfOk, length};
ghost use Rattle.cal_live_run.specs.Quiet.{IsQuiet};
ghost use Rattle.cal_ran.specs.Ended.{IsEnded};
ghost use Rattle.cal_ran.specs.Told.{HaveToldAll};
ghost use Rattle.cal_replay.specs.Workers.{script_of};
ghost use Rattle.cal_script.specs.Reading.{IsValidScript};
ghost use Rattle.cal_start.specs.Runs.{IsRun};
ghost use Rattle.cal_thread.specs.Hiring.{HasHired};

use crate::ending::end_run;
use crate::running::run_all;
use cal_base::{Clock, Gate};
use cal_collect::Shapes;
use cal_ran::EndedRun;
use cal_run::Prober;
use cal_script::Script;
use cal_start::{FirstSeats, Run};
use cal_valid::valid_script_law;
use cal_value::OutOfMemory;
use std::alloc::Global;
use std::hash::RandomState;
use std::marker::Brand;
use std::sync::Wait;
use std::thread::Threads;

/// Runs a script as `cal_ran`'s `run_script` does, but that a collector merges what the threads
/// flush while they run: no flush meets another thread's turn. Flushed parts wait in a mailbox with
/// so much room, from 1 to 1024. An `Err` is want of memory, as it is there. Threads wait for room
/// in the mailbox, and the collector for parts; that it returns isn't promised, least of all where
/// a thread can't be made.
pub fn run_live_script<
    'a,
    R: Threads + Sync,
    Q: Wait + Sync,
    P: Prober + Sync,
    K: Clock + Send + Drop,
    G: Gate + Sync,
>(
    rt: &R,
    wait: &Q,
    alloc: Global,
    hashers: RandomState,
    script: &'a Script,
    real: bool,
    clocks: &mut Vec<K>,
    gate: &G,
    probes: &P,
    room: u32,
) -> Result<EndedRun<'a>, OutOfMemory>
    requires script { IsValidScript script.now }
    requires clocks { length script.now.threads ≤ length clocks.old.items }
    requires room { (1 ≤ room) × (room ≤ 1024) }
    ensures ended { IfOk result (IsEnded script.now) }
    ensures quiet { IfOk result (λ ended. IsQuiet script.now ended.journal) }
    ensures real { IfOk result (λ ended. ended.journal.real ≡ real) }
    ensures told { IfOk result
        (λ ended. HaveToldAll K.given ended.journal clocks.old.items clocks.new.items) }
{
    valid_script_law();
    let (run, first) = Run::new(alloc, hashers, script, real)?;
    let ended = run_by::<R, Q, P, K, G, Brand>(
        rt, wait, alloc, run, first, clocks, gate, probes, room,
    )?;
    Ok(ended)
}

/// Runs the threads of a run beside a collector with its shapes, and ends it.
fn run_by<
    'a,
    R: Threads + Sync,
    Q: Wait + Sync,
    P: Prober + Sync,
    K: Clock + Send + Drop,
    G: Gate + Sync,
    S: Shapes + Send + Sync,
>(
    rt: &R,
    wait: &Q,
    alloc: Global,
    run: Run<'a>,
    mut first: FirstSeats,
    clocks: &mut Vec<K>,
    gate: &G,
    probes: &P,
    room: u32,
) -> Result<EndedRun<'a>, OutOfMemory>
    requires valid { IsValidScript (script_of run.shared) }
    requires run { IsRun run }
    requires shapes { S.shapes ≡ run.shapes.items }
    requires first { HasHired run.shared.common first.tree first.log 0 }
    requires clocks { length (script_of run.shared).threads ≤ length clocks.old.items }
    requires room { (1 ≤ room) × (room ≤ 1024) }
    ensures ended { IfOk result (IsEnded (script_of run.entry.shared)) }
    ensures quiet { IfOk result (λ ended. IsQuiet (script_of run.entry.shared) ended.journal) }
    ensures real { IfOk result (λ ended. ended.journal.real ≡ run.entry.shared.real) }
    ensures told { IfOk result
        (λ ended. HaveToldAll K.given ended.journal clocks.old.items clocks.new.items) }
{
    let collected = run_all::<R, Q, P, S, K, G>(
        rt, wait, alloc, &run, &mut first, clocks, gate, probes, room,
    )?;
    let ended = end_run::<P, Q, S>(alloc, run, first, collected)?;
    Ok(ended)
}
