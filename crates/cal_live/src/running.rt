//! All running threads beside the collector.
ghost use Rattle.std.specs.Prelude.{◌≡◌, ◌≤◌, All, IfOk, OnOk, length};
ghost use Rattle.cal_collect.specs.Collecting.{HasMerged};
ghost use Rattle.cal_keeping.specs.Runners.{IsHiredRunner};
ghost use Rattle.cal_live.specs.Ran.{HasCollected, HaveRunAndEnded, HaveShiftedAndEnded};
ghost use Rattle.cal_live.specs.Sending.{IsSendingFor, account_of};
ghost use Rattle.cal_replay.specs.Workers.{IsShared};

use crate::SenderHand;
use crate::shift::run_and_end;
use cal_base::{Clock, Gate};
use cal_collect::{PartCollector, Shapes};
use cal_crew::{Shift, have_all_run, pair, part};
use cal_keeping::Runner;
use cal_replay::Shared;
use cal_run::Prober;
use cal_value::OutOfMemory;
use std::alloc::Global;
use std::sync::Wait;
use std::thread;
use std::thread::Threads;

/// Runs all lines of these runners, each in a thread of its own with the clock at its place, while
/// the collector merges what they flush. It gives the runners back in their order, each with its
/// sender ended, and the collector, and leaves the clocks in theirs. An `Err` is want of memory:
/// some runner may have run; all are dropped with the collector, and clocks with them. Threads and
/// the collector wait for each other; that it returns isn't promised, least of all where no thread
/// can be made.
pub fn run_and_collect<
    'a,
    'b,
    'c,
    R: Threads + Sync,
    P: Prober + Sync,
    Q: Wait + Sync,
    S: Shapes + Send + Sync,
    K: Clock + Send + Drop,
    G: Gate + Sync,
>(
    rt: &R,
    alloc: Global,
    shared: &Shared<'_>,
    runners: Vec<Runner<'a, P, SenderHand<'b, Q, S>>>,
    clocks: &mut Vec<K>,
    gate: &G,
    collector: PartCollector<'c, Q, S>,
) -> Result<
    (
        Vec<Runner<'a, P, SenderHand<'b, Q, S>>>,
        PartCollector<'c, Q, S>,
    ),
    OutOfMemory,
>
    requires shared { IsShared shared.now }
    requires hired { All (IsHiredRunner account_of (IsSendingFor S.shapes) shared.now)
        runners.items }
    requires clocks { length runners.items ≤ length clocks.old.items }
    requires merged { HasMerged S.shapes collector }
    ensures ran { IfOk result (λ done. HaveRunAndEnded S.shapes shared.now K.given
        runners.entry.items done.0.items clocks.old.items clocks.new.items) }
    ensures collected { IfOk result
        (λ done. HasCollected S.shapes collector.entry done.1) }
{
    let shifts = pair(alloc, runners, clocks)?;
    let ((collector, collected), shifts) = thread::join(
        rt,
        || -> (PartCollector<'_, Q, S>, Result<(), OutOfMemory>)
            requires { HasMerged S.shapes collector }
            ensures { OnOk result.1 (HasCollected S.shapes collector.entry result.0) }
        { collect(collector) },
        || -> Vec<Shift<'_, P, SenderHand<'_, Q, S>, K>>
            requires shared { IsShared shared.now }
            requires hired { All (λ s. IsHiredRunner account_of (IsSendingFor S.shapes) shared.now
                s.runner) shifts.items }
            ensures { (length result.items ≡ length shifts.entry.items)
                × HaveShiftedAndEnded S.shapes shared.entry.now K.given shifts.entry.items
                result.items }
        { run_shifts(rt, alloc, shared, shifts, gate) },
    );
    collected?;
    if !have_all_run(shifts.as_slice()) {
        return Err(OutOfMemory);
    }
    let done = part(alloc, shifts, clocks)?;
    Ok((done, collector))
}

/// The collector, once each sender's last message came to it, and whether it merged all parts.
fn collect<'c, Q: Wait, S: Shapes>(
    mut collector: PartCollector<'c, Q, S>,
) -> (PartCollector<'c, Q, S>, Result<(), OutOfMemory>)
    requires merged { HasMerged S.shapes collector }
    ensures collected { OnOk result.1 (HasCollected S.shapes collector.entry result.0) }
{
    let collected = collector.collect();
    (collector, collected)
}

/// The shifts, each of which was run in a thread of its own.
fn run_shifts<
    'a,
    'b,
    R: Threads + Sync,
    P: Prober + Sync,
    Q: Wait + Sync,
    S: Shapes + Send + Sync,
    K: Clock + Send,
    G: Gate + Sync,
>(
    rt: &R,
    alloc: Global,
    shared: &Shared<'_>,
    mut shifts: Vec<Shift<'a, P, SenderHand<'b, Q, S>, K>>,
    gate: &G,
) -> Vec<Shift<'a, P, SenderHand<'b, Q, S>, K>>
    requires shared { IsShared shared.now }
    requires hired { All (λ s. IsHiredRunner account_of (IsSendingFor S.shapes) shared.now s.runner)
        shifts.items }
    ensures many { length result.items ≡ length shifts.entry.items }
    ensures ran { HaveShiftedAndEnded S.shapes shared.now K.given shifts.entry.items result.items }
{
    run_all(rt, alloc, shared, shifts.as_mut_slice(), gate);
    shifts
}

/// Runs each shift in a thread of its own.
fn run_all<
    'a,
    'b,
    R: Threads + Sync,
    P: Prober + Sync,
    Q: Wait + Sync,
    S: Shapes + Send + Sync,
    K: Clock + Send,
    G: Gate + Sync,
>(
    rt: &R,
    alloc: Global,
    shared: &Shared<'_>,
    shifts: &mut [Shift<'a, P, SenderHand<'b, Q, S>, K>],
    gate: &G,
)
    requires shared { IsShared shared.now }
    requires hired { All (λ s. IsHiredRunner account_of (IsSendingFor S.shapes) shared.now s.runner)
        shifts.old }
    ensures many { length shifts.new ≡ length shifts.old }
    ensures ran { HaveShiftedAndEnded S.shapes shared.now K.given shifts.old shifts.new }
{
    let threads = shifts.len().max(1);
    thread::for_each_mut(
        rt,
        shifts,
        threads,
        &|_number, shift| run_and_end(alloc, shared, gate, shift),
    );
}
