//! All runners, each with its clock in a thread of its own.
ghost use Rattle.std.specs.Prelude.{◌≡◌, ◌≤◌, ◌++◌, true, All, IfOk, OnOk, length, reverse};
ghost use Rattle.cal_crew.specs.Ran.{HaveRun};
ghost use Rattle.cal_crew.specs.Shifts.{HaveShifted, clocks_of, runners_of};
ghost use Rattle.cal_keeping.specs.Runners.{IsHiredRunner};
ghost use Rattle.cal_replay.specs.Workers.{IsShared};

use crate::shift::{Shift, run_one};
use cal_base::{Clock, Gate};
use cal_keeping::{PartHand, Runner};
use cal_replay::Shared;
use cal_run::Prober;
use cal_value::OutOfMemory;
use std::alloc::Global;
use std::thread;
use std::thread::Threads;

/// Starts these runners and runs all their lines, each in a thread of its own with the clock at its
/// place, and joins the threads. It gives the runners back in their order, and leaves the clocks in
/// theirs. Where a thread can't be made, its runner runs in another's. An `Err` is want of memory:
/// some runner may have run, all are dropped, and clocks with them.
pub fn run_threads<
    'a,
    R: Threads + Sync,
    P: Prober + Sync,
    H: PartHand + Send + Drop,
    K: Clock + Send + Drop,
    G: Gate + Sync,
>(
    rt: &R,
    alloc: Global,
    shared: &Shared<'_>,
    runners: Vec<Runner<'a, P, H>>,
    clocks: &mut Vec<K>,
    gate: &G,
) -> Result<Vec<Runner<'a, P, H>>, OutOfMemory>
    requires shared { IsShared shared.now }
    requires hired { All (IsHiredRunner H.account H.takes shared.now) runners.items }
    requires clocks { length runners.items ≤ length clocks.old.items }
    ensures ran { IfOk result (λ done. HaveRun H.account H.takes H.stays shared.now K.given
        runners.entry.items done.items clocks.old.items clocks.new.items) }
{
    let mut shifts = pair(alloc, runners, clocks)?;
    run_all(rt, alloc, shared, shifts.as_mut_slice(), gate);
    if !have_all_run(shifts.as_slice()) {
        return Err(OutOfMemory);
    }
    let done = part(alloc, shifts, clocks)?;
    Ok(done)
}

/// Each runner with the clock at its place, in the order of the runners, and not run yet. What is
/// left of the clocks stands in turned order, so that a clock is taken and given back at the end. It
/// takes memory for the list. Behind an `Err` the clocks taken are dropped.
pub fn pair<'a, P: Prober, H: Drop, K: Drop>(
    alloc: Global,
    mut runners: Vec<Runner<'a, P, H>>,
    clocks: &mut Vec<K>,
) -> Result<Vec<Shift<'a, P, H, K>>, OutOfMemory>
    requires enough { length runners.items ≤ length clocks.old.items }
    ensures runners { IfOk result (λ made. runners_of made.items ≡ runners.entry.items) }
    ensures clocks { IfOk result
        (λ made. clocks_of made.items ++ reverse clocks.new.items ≡ clocks.old.items) }
{
    let mut shifts = Vec::with_capacity(alloc, runners.len())?;
    runners.reverse();
    clocks.reverse();
    while let Some(runner) = runners.pop() {
        let clock = clocks.pop().unwrap();
        let ran = false;
        shifts.push(Shift { runner, clock, ran })?;
    }
    Ok(shifts)
}

/// Runs each shift in a thread of its own.
fn run_all<
    'a,
    R: Threads + Sync,
    P: Prober + Sync,
    H: PartHand + Send + Drop,
    K: Clock + Send,
    G: Gate + Sync,
>(rt: &R, alloc: Global, shared: &Shared<'_>, shifts: &mut [Shift<'a, P, H, K>], gate: &G)
    requires shared { IsShared shared.now }
    requires hired { All (λ s. IsHiredRunner H.account H.takes shared.now s.runner) shifts.old }
    ensures many { length shifts.new ≡ length shifts.old }
    ensures ran { HaveShifted H.account H.takes H.stays shared.now K.given shifts.old shifts.new }
{
    let threads = shifts.len().max(1);
    thread::for_each_mut(
        rt,
        shifts,
        threads,
        &|_number, shift| run_one(alloc, shared, gate, shift),
    );
}

/// Whether each shift has run all its lines.
pub fn have_all_run<'a, P: Prober, H, K>(shifts: &[Shift<'a, P, H, K>]) -> bool
    ensures { result ≡ true → All (λ s. s.ran ≡ true) shifts.now }
{
    for shift in shifts {
        if !shift.ran {
            return false;
        }
    }
    true
}

/// The runners of shifts in their order, whose clocks are given back before those that are left,
/// which stand in turned order. It takes memory for the list. Behind an `Err` shifts and clocks are
/// dropped.
pub fn part<'a, P: Prober, H: Drop, K: Drop>(
    alloc: Global,
    mut shifts: Vec<Shift<'a, P, H, K>>,
    clocks: &mut Vec<K>,
) -> Result<Vec<Runner<'a, P, H>>, OutOfMemory>
    ensures runners { IfOk result (λ done. done.items ≡ runners_of shifts.entry.items) }
    ensures clocks { OnOk result (clocks.new.items
        ≡ clocks_of shifts.entry.items ++ reverse clocks.old.items) }
{
    let mut done = Vec::with_capacity(alloc, shifts.len())?;
    while let Some(shift) = shifts.pop() {
        let Shift {
            runner,
            clock,
            ran: _,
        } = shift;
        done.push(runner)?;
        clocks.push(clock)?;
    }
    done.reverse();
    clocks.reverse();
    Ok(done)
}
