//! The groups of a channel, from its tables.
ghost use Rattle.std.specs.Prelude.{◌≡◌, [], List, OnOk, if◌then◌else◌};
ghost use Rattle.cal_channel.specs.Values.{ChannelValue};
ghost use Rattle.cal_context.specs.Taking.{TakesMore};
ghost use Rattle.cal_context.specs.Tree.{Grows};
ghost use Rattle.cal_delivery.specs.OneChannel.{IsTakenIn};
ghost use Rattle.cal_nodes.specs.Numbers.{AreNumbered};
ghost use Rattle.cal_once.specs.Seats.{view};
ghost use Rattle.cal_once.specs.Views.{Learns};
ghost use Rattle.cal_profile.specs.Groups.{channel_query, group_records};
ghost use Rattle.cal_script.specs.declared.script.Script as scripts;
ghost use Rattle.cal_tree.specs.Seats.{IsTreeSeat};
ghost use Rattle.cal_value.specs.declared.record.Rec.{Rec};

use crate::numbering::number_tables;
use cal_context::{Context, Taker};
use cal_groups::take_table_groups;
use cal_nodes::ContextNodes;
use cal_script::Channel;
use cal_table::Table;
use cal_table_rows::tables_together_have_the_groups_of_traces;
use cal_tree::{Tree, TreeSeat};
use cal_value::OutOfMemory;
use std::alloc::Global;

/// Hands the records of the groups of an aggregating channel to a taker, in the order of groups: the
/// groups of all that was taken in the channel, from the tables that count it. Another channel
/// hands nothing over. The context gets the nodes and the attributes of results that it lacks, also
/// where memory runs out.
pub(crate) fn take_groups<T: Taker>(
    alloc: Global,
    channel: &Channel,
    tables: &[Table],
    tree: &Tree,
    seat: &mut TreeSeat,
    nodes: &mut ContextNodes,
    context: &mut Context,
    taker: &mut T,
) -> Result<(), OutOfMemory>
    requires seat { IsTreeSeat tree.now seat.old }
    requires numbered { AreNumbered tree.now seat.old context.old nodes.old }
    requires taken { (script : scripts.Script) × (kept : List ChannelValue) × (recs : List Rec)
        × IsTakenIn context.old script tree.now seat.old channel.now kept tables.now recs }
    ensures taken { OnOk result ((script : scripts.Script) (kept : List ChannelValue)
        (recs : List Rec)
        → IsTakenIn context.old script tree.now seat.old channel.now kept tables.now recs
        → TakesMore (T.has_taken taker.old context.old) (T.has_taken taker.new context.new)
        (if channel.now.aggregate then group_records (channel_query channel.now.query) recs
        else [])) }
    ensures seat { IsTreeSeat tree.now seat.new }
    ensures learns { Learns (view seat.old) (view seat.new) }
    ensures grows { Grows context.old context.new }
    ensures numbered { AreNumbered tree.now seat.new context.new nodes.new }
    ensures about { OnOk result (T.about taker.new ≡ T.about taker.old) }
{
    if !channel.aggregate {
        return Ok(());
    }
    tables_together_have_the_groups_of_traces();
    number_tables(alloc, tables, tree, seat, nodes, context)?;
    take_table_groups(alloc, &channel.query, tables, nodes, context, taker)
}
