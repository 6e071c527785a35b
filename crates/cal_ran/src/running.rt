//! All threads of a run, from their hiring until they hand over.
ghost use Rattle.std.specs.Prelude.{◌≤◌, IfOk, OnOk, length};
ghost use Rattle.cal_ran.specs.Runs.{AreHandedOf};
ghost use Rattle.cal_ran.specs.Told.{AreToldAll};
ghost use Rattle.cal_replay.specs.Workers.{script_of};
ghost use Rattle.cal_start.specs.FirstSeats.{HaveHired};
ghost use Rattle.cal_start.specs.Runs.{IsRun};

use cal_base::{Clock, Gate};
use cal_crew::run_threads;
use cal_handover::{Handed, hand_over};
use cal_run::Prober;
use cal_start::{FirstSeats, Run};
use cal_value::OutOfMemory;
use std::alloc::Global;
use std::thread::Threads;

/// Hires the threads of a run, runs all their lines, each in a thread of its own with the clock at
/// its place, and takes what they hand over, after which nobody borrows the run. An `Err` is want
/// of memory: some lines may have run, and clocks may be lost.
pub(crate) fn run_all<R: Threads + Sync, P: Prober + Sync, K: Clock + Send + Drop, G: Gate + Sync>(
    rt: &R,
    alloc: Global,
    run: &Run<'_>,
    first: &mut FirstSeats,
    clocks: &mut Vec<K>,
    gate: &G,
    probes: &P,
) -> Result<Handed, OutOfMemory>
    requires run { IsRun run.now }
    requires first { HaveHired run.now first.old 0 }
    requires clocks { length (script_of run.now.shared).threads ≤ length clocks.old.items }
    ensures handed { IfOk result (AreHandedOf P run.now) }
    ensures first { OnOk result
        (HaveHired run.now first.new (length (script_of run.now.shared).threads)) }
    ensures told { IfOk result (λ handed. AreToldAll K.given run.now.shared.real handed.notes
        clocks.old.items clocks.new.items) }
{
    let runners = run.hire(alloc, probes, first)?;
    let done = run_threads(rt, alloc, &run.shared, runners, clocks, gate)?;
    let handed = hand_over(alloc, done)?;
    Ok(handed)
}
