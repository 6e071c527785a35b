//! One thread's work: a runner with the clock that it asks.
ghost use Rattle.cal_crew.specs.Shifts.{HasShifted};
ghost use Rattle.cal_keeping.specs.Runners.{IsHiredRunner};
ghost use Rattle.cal_replay.specs.Workers.{IsShared};

use cal_base::{Clock, Gate};
use cal_keeping::{PartHand, Runner};
use cal_replay::Shared;
use cal_run::Prober;
use std::alloc::Global;

/// A runner with its clock, and whether it has run all its lines.
#[derive(Drop)]
pub struct Shift<'a, P, H, K> {
    pub runner: Runner<'a, P, H>,
    pub clock: K,
    pub ran: bool,
}

/// Starts the runner and runs all its lines. Where it ran out of memory they haven't run.
pub(crate) fn run_one<'a, P: Prober, H: PartHand + Drop, K: Clock, G: Gate>(
    alloc: Global,
    shared: &Shared<'_>,
    gate: &G,
    shift: &mut Shift<'a, P, H, K>,
)
    requires shared { IsShared shared.now }
    requires hired { IsHiredRunner H.account H.takes shared.now shift.old.runner }
    ensures shifted { HasShifted H.account H.takes H.stays shared.now K.given shift.old shift.new }
{
    shift.runner.start(shared, &mut shift.clock);
    let ran = shift.runner.run(alloc, shared, &mut shift.clock, gate);
    shift.ran = ran.is_ok();
}
