//! One thread's work: it runs all its lines, and ends its sender.
ghost use Rattle.cal_keeping.specs.Runners.{IsHiredRunner};
ghost use Rattle.cal_live.specs.Ran.{HasShiftedAndEnded};
ghost use Rattle.cal_live.specs.Sending.{IsSendingFor, account_of};
ghost use Rattle.cal_replay.specs.Workers.{IsShared};

use crate::SenderHand;
use cal_base::{Clock, Gate};
use cal_collect::Shapes;
use cal_crew::Shift;
use cal_replay::Shared;
use cal_run::Prober;
use std::alloc::Global;
use std::sync::Wait;

/// Starts the runner, runs all its lines, and sends its last message, also where it ran out of
/// memory and its lines haven't run.
pub(crate) fn run_and_end<'a, 'b, P: Prober, Q: Wait, S: Shapes, K: Clock, G: Gate>(
    alloc: Global,
    shared: &Shared<'_>,
    gate: &G,
    shift: &mut Shift<'a, P, SenderHand<'b, Q, S>, K>,
)
    requires shared { IsShared shared.now }
    requires hired { IsHiredRunner account_of (IsSendingFor S.shapes) shared.now shift.old.runner }
    ensures shifted { HasShiftedAndEnded S.shapes shared.now K.given shift.old shift.new }
{
    shift.runner.start(shared, &mut shift.clock);
    let ran = shift.runner.run(alloc, shared, &mut shift.clock, gate);
    shift.runner.channels.hand.end();
    shift.ran = ran.is_ok();
}
