//! The traces of a channel, thread by thread.
ghost use Rattle.std.specs.Prelude.{◌≡◌, ◌<◌, [], List, All, OnOk, if◌then◌else◌, length};
ghost use Rattle.cal_channel.specs.Places.{at_place, lists_of};
ghost use Rattle.cal_channel.specs.Values.{ChannelValue};
ghost use Rattle.cal_context.specs.Lists.{IsFront};
ghost use Rattle.cal_context.specs.Taking.{TakesMore};
ghost use Rattle.cal_context.specs.Tree.{Grows};
ghost use Rattle.cal_delivery.specs.OneChannel.{IsOwnTrace, IsTakenIn};
ghost use Rattle.cal_nodes.specs.Numbers.{AreNumbered};
ghost use Rattle.cal_once.specs.Seats.{view};
ghost use Rattle.cal_once.specs.Views.{Learns};
ghost use Rattle.cal_table.specs.Tables.{TableValue};
ghost use Rattle.cal_tree.specs.Seats.{IsTreeSeat};
ghost use Rattle.cal_value.specs.declared.record.Rec.{Rec};

use cal_channel::ThreadChannel;
use cal_context::{Context, Taker};
use cal_nodes::ContextNodes;
use cal_results::take_trace;
use cal_script::{Channel, Script};
use cal_tree::{Tree, TreeSeat};
use cal_value::OutOfMemory;
use std::alloc::Global;

/// Hands what was taken in a channel with trace to a taker: the snapshots that each thread has at
/// the channel's place, one thread's behind another's. A channel without trace hands nothing over.
/// The context gets the nodes that it lacks, also where memory runs out.
pub(crate) fn take_traces<T: Taker>(
    alloc: Global,
    script: &Script,
    channel: &Channel,
    place: usize,
    channels: &[Vec<ThreadChannel>],
    tree: &Tree,
    seat: &mut TreeSeat,
    nodes: &mut ContextNodes,
    context: &mut Context,
    taker: &mut T,
) -> Result<(), OutOfMemory>
    requires seat { IsTreeSeat tree.now seat.old }
    requires numbered { AreNumbered tree.now seat.old context.old nodes.old }
    requires within { All (λ (own : List ChannelValue). place < length own)
        (lists_of channels.now) }
    requires taken { (tables : List TableValue) × (recs : List Rec) × IsTakenIn context.old
        script.now tree.now seat.old channel.now (at_place place (lists_of channels.now)) tables
        recs }
    ensures taken { OnOk result ((tables : List TableValue) (recs : List Rec)
        → IsTakenIn context.old script.now tree.now seat.old channel.now
        (at_place place (lists_of channels.now)) tables recs
        → TakesMore (T.has_taken taker.old context.old) (T.has_taken taker.new context.new)
        (if channel.now.trace then recs else [])) }
    ensures seat { IsTreeSeat tree.now seat.new }
    ensures learns { Learns (view seat.old) (view seat.new) }
    ensures grows { Grows context.old context.new }
    ensures numbered { AreNumbered tree.now seat.new context.new nodes.new }
    ensures about { OnOk result (T.about taker.new ≡ T.about taker.old) }
{
    if !channel.trace {
        return Ok(());
    }
    for own in channels {
        take_own_trace(
            alloc,
            script,
            &own[place],
            tree,
            seat,
            nodes,
            context,
            taker,
        )?;
    }
    Ok(())
}

/// Hands a thread's trace of a channel to a taker.
fn take_own_trace<T: Taker>(
    alloc: Global,
    script: &Script,
    own: &ThreadChannel,
    tree: &Tree,
    seat: &mut TreeSeat,
    nodes: &mut ContextNodes,
    context: &mut Context,
    taker: &mut T,
) -> Result<(), OutOfMemory>
    requires seat { IsTreeSeat tree.now seat.old }
    requires numbered { AreNumbered tree.now seat.old context.old nodes.old }
    requires named { IsFront script.now.attributes context.old.attributes }
    requires own { (recs : List Rec)
        × IsOwnTrace context.old script.now tree.now seat.old own.now recs }
    ensures taken { OnOk result ((recs : List Rec)
        → IsOwnTrace context.old script.now tree.now seat.old own.now recs
        → TakesMore (T.has_taken taker.old context.old) (T.has_taken taker.new context.new) recs) }
    ensures seat { IsTreeSeat tree.now seat.new }
    ensures learns { Learns (view seat.old) (view seat.new) }
    ensures grows { Grows context.old context.new }
    ensures numbered { AreNumbered tree.now seat.new context.new nodes.new }
    ensures about { OnOk result (T.about taker.new ≡ T.about taker.old) }
{
    match own.trace() {
        Some(trace) => take_trace(alloc, script, trace, tree, seat, nodes, context, taker),
        None => unreachable!(),
    }
}
