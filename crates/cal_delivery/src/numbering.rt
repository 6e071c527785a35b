//! The nodes of the keys of tables get their numbers in a context.
ghost use Rattle.std.specs.Prelude.{◌≡◌, ◌++◌, All, IfOk, OnOk};
ghost use Rattle.std.specs.List.{flat_map};
ghost use Rattle.cal_context.specs.Tree.{Grows};
ghost use Rattle.cal_delivery.specs.KeyNodes.{CanNumberKey, CanNumberTable, IsKeyNumbered};
ghost use Rattle.cal_delivery.specs.KeyNodes.{IsTableNumbered, nodes_of};
ghost use Rattle.cal_nodes.specs.Numbers.{AreNumbered, KeepsNumbers};
ghost use Rattle.cal_once.specs.Seats.{view};
ghost use Rattle.cal_once.specs.Views.{Learns};
ghost use Rattle.cal_tree.specs.Seats.{IsTreeSeat};

use cal_context::Context;
use cal_nodes::ContextNodes;
use cal_table::{Table, TableKey};
use cal_tree::{Tree, TreeSeat};
use cal_value::OutOfMemory;
use cal_words::NodeId;
use std::alloc::Global;

/// Gives each node of each key of tables its number in the context, as `number_keys` does it of one
/// table.
pub(crate) fn number_tables(
    alloc: Global,
    tables: &[Table],
    tree: &Tree,
    seat: &mut TreeSeat,
    nodes: &mut ContextNodes,
    context: &mut Context,
) -> Result<(), OutOfMemory>
    requires seat { IsTreeSeat tree.now seat.old }
    requires numbered { AreNumbered tree.now seat.old context.old nodes.old }
    requires keys { All (CanNumberTable tree.now seat.old context.old) tables.now }
    ensures keys { OnOk result (All (IsTableNumbered nodes.new) tables.now) }
    ensures seat { IsTreeSeat tree.now seat.new }
    ensures learns { Learns (view seat.old) (view seat.new) }
    ensures grows { Grows context.old context.new }
    ensures attributes { context.new.attributes ≡ context.old.attributes }
    ensures numbered { AreNumbered tree.now seat.new context.new nodes.new }
{
    for table in tables {
        let rows = table.rows();
        number_keys(alloc, rows.keys, tree, seat, nodes, context)?;
    }
    Ok(())
}

/// Gives each node of each key its number in the context. It takes memory for what is new there and
/// four bytes for each node of a key, and time in the keys' nodes and in those that had no number
/// yet. After an `Err` some have theirs.
fn number_keys(
    alloc: Global,
    keys: &[TableKey],
    tree: &Tree,
    seat: &mut TreeSeat,
    nodes: &mut ContextNodes,
    context: &mut Context,
) -> Result<(), OutOfMemory>
    requires seat { IsTreeSeat tree.now seat.old }
    requires numbered { AreNumbered tree.now seat.old context.old nodes.old }
    requires keys { All (CanNumberKey tree.now seat.old context.old) keys.now }
    ensures keys { OnOk result (All (IsKeyNumbered nodes.new) keys.now) }
    ensures keeps { KeepsNumbers nodes.old nodes.new }
    ensures seat { IsTreeSeat tree.now seat.new }
    ensures learns { Learns (view seat.old) (view seat.new) }
    ensures grows { Grows context.old context.new }
    ensures attributes { context.new.attributes ≡ context.old.attributes }
    ensures numbered { AreNumbered tree.now seat.new context.new nodes.new }
{
    let all = nodes_of_keys(alloc, keys)?;
    nodes.number_all(alloc, tree, seat, context, &all)?;
    Ok(())
}

/// The nodes of keys, one key's behind another's: four bytes a node. A key's nodes may lie apart
/// from it. Here nothing stands between one key and the next, so the processor waits for several
/// keys at a time, and `number_all` sees which nodes come next.
fn nodes_of_keys(alloc: Global, keys: &[TableKey]) -> Result<Vec<NodeId>, OutOfMemory>
    ensures { IfOk result (λ nodes. nodes.items ≡ flat_map nodes_of keys.now) }
{
    let mut nodes = Vec::with_capacity(alloc, keys.len())?;
    for key in keys {
        add_nodes(key.refs.as_slice(), &mut nodes)?;
    }
    Ok(nodes)
}

fn add_nodes(refs: &[NodeId], nodes: &mut Vec<NodeId>) -> Result<(), OutOfMemory>
    ensures { OnOk result (nodes.new.items ≡ nodes.old.items ++ refs.now) }
{
    for node in refs {
        nodes.push(*node)?;
    }
    Ok(())
}
