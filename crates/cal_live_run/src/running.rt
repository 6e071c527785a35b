//! All threads of a run beside a collector, from their hiring until all that they sent is merged.
ghost use Rattle.std.specs.Prelude.{◌≡◌, ◌≤◌, IfOk, OnOk, length};
ghost use Rattle.cal_live_run.specs.Collected.{AreCollectedOf};
ghost use Rattle.cal_ran.specs.Told.{AreToldAll};
ghost use Rattle.cal_replay.specs.Workers.{script_of};
ghost use Rattle.cal_start.specs.Runs.{IsRun};
ghost use Rattle.cal_thread.specs.Hiring.{HasHired};

use crate::handing::{Sent, hand_over};
use crate::hiring::hire_to_send;
use cal_base::{Clock, Gate};
use cal_channel::ThreadChannel;
use cal_collect::Shapes;
use cal_live::run_and_collect;
use cal_run::Prober;
use cal_script::ThreadNote;
use cal_start::{FirstSeats, Run};
use cal_table::Table;
use cal_thread::Thread;
use cal_value::{OutOfMemory, Seq};
use std::alloc::Global;
use std::sync::Wait;
use std::thread::Threads;

/// What the threads of a run leave whose parts were collected: by threads in their order, the
/// threads, what was noted of them and their channels; and for each channel the table of all that
/// was sent for it.
#[derive(Drop)]
pub struct Collected {
    pub threads: Vec<Thread>,
    pub notes: Seq<ThreadNote>,
    pub channels: Vec<Vec<ThreadChannel>>,
    pub tables: Vec<Table>,
}

/// Hires the threads of a run, runs all their lines, each in a thread of its own with the clock at
/// its place, while a collector merges what they flush, and takes what they leave, after which
/// nobody borrows the run. An `Err` is want of memory: some lines may have run, and clocks may be
/// lost. That it returns isn't promised.
pub(crate) fn run_all<
    R: Threads + Sync,
    Q: Wait + Sync,
    P: Prober + Sync,
    S: Shapes + Send + Sync,
    K: Clock + Send + Drop,
    G: Gate + Sync,
>(
    rt: &R,
    wait: &Q,
    alloc: Global,
    run: &Run<'_>,
    first: &mut FirstSeats,
    clocks: &mut Vec<K>,
    gate: &G,
    probes: &P,
    room: u32,
) -> Result<Collected, OutOfMemory>
    requires run { IsRun run.now }
    requires shapes { S.shapes ≡ run.now.shapes.items }
    requires first { HasHired run.now.shared.common first.old.tree first.old.log 0 }
    requires clocks { length (script_of run.now.shared).threads ≤ length clocks.old.items }
    requires room { (1 ≤ room) × (room ≤ 1024) }
    ensures collected { IfOk result (AreCollectedOf P Q S S.shapes run.now) }
    ensures first { OnOk result (HasHired run.now.shared.common first.new.tree first.new.log
        (length (script_of run.now.shared).threads)) }
    ensures told { IfOk result (λ collected. AreToldAll K.given run.now.shared.real
        collected.notes clocks.old.items clocks.new.items) }
{
    let (runners, collector) = hire_to_send::<P, Q, S>(wait, alloc, run, probes, first, room)?;
    let (done, collector) = run_and_collect(
        rt,
        alloc,
        &run.shared,
        runners,
        clocks,
        gate,
        collector,
    )?;
    let sent = hand_over(alloc, done)?;
    let Sent {
        threads,
        notes,
        channels,
        ended,
    } = sent;
    let tables = collector.finish(ended);
    Ok(Collected {
        threads,
        notes,
        channels,
        tables,
    })
}
