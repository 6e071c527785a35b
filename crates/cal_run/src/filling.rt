ghost use Rattle.std.specs.Prelude.{◌≡◌, IfOk};
ghost use Rattle.cal_board.specs.Contexts.{NodeStands};
ghost use Rattle.cal_context.specs.Snapshots.{IsIn, meaning};
ghost use Rattle.cal_run.specs.Adding.{MayHavePlaces, ShowsSome};
ghost use Rattle.cal_run.specs.Held.{Shows};
ghost use Rattle.cal_run.specs.Numbers.{AreNumbered};
ghost use Rattle.cal_run.specs.Snapshots.{Sight, snapshot_of};

use crate::moment::Moment;
use crate::probes::Formulas;
use crate::services::add_immediates;
use crate::{Numbers, Operation};
use cal_board::Draft;
use cal_context::{Context, NodeNumber, Snapshot};
use cal_script::{Channel, Script};
use cal_value::OutOfMemory;
use std::alloc::Global;

/// Makes the snapshot that a channel takes of a moment.
#[inline(always)]
pub(crate) fn fill<'a>(
    alloc: Global,
    script: &Script,
    numbers: &Numbers,
    channel: &Channel,
    op: Option<Operation>,
    moment: &Moment<NodeNumber>,
    context: &Context,
    draft: &'a mut Draft,
) -> Result<&'a Snapshot, OutOfMemory>
    requires numbered { AreNumbered context.now script.now numbers.now }
    requires places { MayHavePlaces script.now op }
    requires timed { moment.now.timed ≡ channel.now.timer }
    requires shown { ShowsSome (NodeStands context.now) script.now moment.now }
    ensures inside { IfOk result (λ snapshot. IsIn context.now snapshot.now) }
    ensures means { IfOk result (λ snapshot. (s : Sight)
        → Shows (NodeStands context.now) script.now moment.now s
        → meaning context.now snapshot.now ≡ snapshot_of script.now s channel.now op) }
{
    draft.clear();
    let probes = Formulas;
    add_immediates(
        alloc, script, numbers, channel, op, moment, context, &probes, draft,
    )?;
    moment.board.has_few_slots();
    moment.process.has_few_slots();
    let snapshot = draft.finish(moment.board, moment.process)?;
    Ok(snapshot)
}
