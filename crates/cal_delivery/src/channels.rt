//! The rows of all channels, in their order.
ghost use Rattle.std.specs.Prelude.{◌≡◌, ◌<◌, List, All, OnOk, flat_map, length};
ghost use Rattle.cal_channel.specs.Places.{at_place, lists_of};
ghost use Rattle.cal_channel.specs.Values.{ChannelValue};
ghost use Rattle.cal_context.specs.Taking.{TakesMore};
ghost use Rattle.cal_context.specs.Tree.{Grows};
ghost use Rattle.cal_delivery.specs.OneChannel.{IsTakenIn};
ghost use Rattle.cal_delivery.specs.Taken.{IsTaken, rows_of};
ghost use Rattle.cal_nodes.specs.Numbers.{AreNumbered};
ghost use Rattle.cal_once.specs.Seats.{view};
ghost use Rattle.cal_once.specs.Views.{Learns};
ghost use Rattle.cal_script.specs.Shapes.{tree_shape as shape_for};
ghost use Rattle.cal_script.specs.Valid.{IsRunnable};
ghost use Rattle.cal_script.specs.declared.script.Channel as channel;
ghost use Rattle.cal_tree.specs.Seats.{IsTreeSeat, plan_of};
ghost use Rattle.cal_value.specs.declared.record.Rec.{Rec};

use crate::groups::take_groups;
use crate::traces::take_traces;
use cal_channel::ThreadChannel;
use cal_context::{Context, Taker};
use cal_nodes::ContextNodes;
use cal_script::{Channel, Script};
use cal_table::Table;
use cal_tree::{Tree, TreeSeat};
use cal_value::OutOfMemory;
use std::alloc::Global;

/// Hands the rows of all channels of a run to a taker, in the order of the channels: of each the
/// snapshots of its trace, thread by thread, where it has one, and then the records of its groups,
/// where it aggregates. The tree is laid out as the script's lines need, as in any run; `channels`
/// has the channels of each thread, and `tables` a list of tables for each channel. The context gets
/// the nodes and the attributes of results that it lacks, also where memory runs out; after an `Err`
/// nothing is said of the taker. It takes eight bytes for each slot of the tree, memory for what is
/// new in the context and for the groups, and time in the traces' nodes and entries, in the tables'
/// rows and in the groups, whose order takes n log n comparisons.
pub fn take_rows<T: Taker>(
    alloc: Global,
    script: &Script,
    tree: &Tree,
    seat: &mut TreeSeat,
    channels: &[Vec<ThreadChannel>],
    tables: &[Vec<Table>],
    context: &mut Context,
    taker: &mut T,
) -> Result<(), OutOfMemory>
    requires runnable { IsRunnable script.now }
    requires shape { (plan_of tree.now).shape ≡ shape_for script.now }
    requires seat { IsTreeSeat tree.now seat.old }
    requires taken { (of : channel.Channel → List Rec) × IsTaken script.now tree.now seat.old
        context.old of (lists_of channels.now) (lists_of tables.now) }
    ensures taken { OnOk result ((of : channel.Channel → List Rec)
        → IsTaken script.now tree.now seat.old context.old of (lists_of channels.now)
        (lists_of tables.now)
        → TakesMore (T.has_taken taker.old context.old) (T.has_taken taker.new context.new)
        (flat_map (λ c. rows_of c (of c)) script.now.channels)) }
    ensures seat { IsTreeSeat tree.now seat.new }
    ensures learns { Learns (view seat.old) (view seat.new) }
    ensures grows { Grows context.old context.new }
    ensures about { OnOk result (T.about taker.new ≡ T.about taker.old) }
{
    let mut nodes = ContextNodes::new(alloc, tree.shape())?;
    let declared = script.channels.as_slice();
    for place in 0..declared.len() {
        take_channel(
            alloc,
            script,
            &declared[place],
            place,
            channels,
            tables[place].as_slice(),
            tree,
            seat,
            &mut nodes,
            context,
            taker,
        )?;
    }
    Ok(())
}

/// Hands the rows of a channel to a taker: its trace, and then its groups.
fn take_channel<T: Taker>(
    alloc: Global,
    script: &Script,
    channel: &Channel,
    place: usize,
    channels: &[Vec<ThreadChannel>],
    tables: &[Table],
    tree: &Tree,
    seat: &mut TreeSeat,
    nodes: &mut ContextNodes,
    context: &mut Context,
    taker: &mut T,
) -> Result<(), OutOfMemory>
    requires seat { IsTreeSeat tree.now seat.old }
    requires numbered { AreNumbered tree.now seat.old context.old nodes.old }
    requires within { All (λ (own : List ChannelValue). place < length own)
        (lists_of channels.now) }
    requires taken { (recs : List Rec) × IsTakenIn context.old script.now tree.now seat.old
        channel.now (at_place place (lists_of channels.now)) tables.now recs }
    ensures taken { OnOk result ((recs : List Rec) → IsTakenIn context.old script.now tree.now
        seat.old channel.now (at_place place (lists_of channels.now)) tables.now recs
        → TakesMore (T.has_taken taker.old context.old) (T.has_taken taker.new context.new)
        (rows_of channel.now recs)) }
    ensures seat { IsTreeSeat tree.now seat.new }
    ensures learns { Learns (view seat.old) (view seat.new) }
    ensures grows { Grows context.old context.new }
    ensures numbered { AreNumbered tree.now seat.new context.new nodes.new }
    ensures about { OnOk result (T.about taker.new ≡ T.about taker.old) }
{
    take_traces(
        alloc, script, channel, place, channels, tree, seat, nodes, context, taker,
    )?;
    take_groups(alloc, channel, tables, tree, seat, nodes, context, taker)
}
