ghost use Rattle.std.specs.Prelude.{◌++◌, List, IfOk, OnOk};
ghost use Rattle.cal_context.specs.Tree.{Grows, IsContext, Tree};
ghost use Rattle.cal_rowset.specs.NumberedRows.{nth_numbered};
ghost use Rattle.cal_value.specs.declared.record.Rec.{Rec as ARecord};
ghost use Rattle.cal_keys.specs.Moves.{AreMovedAttributes, AreMovedImms, AreMovedNodes};
ghost use Rattle.cal_keys.specs.Moves.{IsMovedRow};
ghost use Rattle.cal_keys.specs.SnapshotRows.{AreRows};

use crate::moving::{attribute_in, move_nodes, moved_attributes, nothing_moved, renumbered_nodes};
use crate::within::are_below_root;
use cal_context::{AttributeNumber, Context, Immediate, NodeNumber, Snapshot};
use cal_rowset::SnapshotList;
use cal_value::{OutOfMemory, TryCopy};
use std::alloc::Global;

/// Adds copies of rows of another context at the end, by the numbers of this one. The attributes of
/// that context and the nodes of the rows are put into this one, each once.
pub fn append_rows(
    alloc: Global,
    rows: &mut SnapshotList,
    context: &mut Context,
    others: &SnapshotList,
    its: &Context,
) -> Result<(), OutOfMemory>
    ensures appended { OnOk result ((ks ls : List ARecord)
        → AreRows context.old rows.old ks → AreRows its.now others.now ls
        → AreRows context.new rows.new (ks ++ ls)) }
    ensures grows { Grows context.old context.new }
{
    its.has_each_once();
    let attributes = moved_attributes(alloc, its, context)?;
    let nodes = moved_row_nodes(alloc, its, context, others)?;
    context.has_each_once();
    append_moved(alloc, rows, others, &attributes, &nodes)
}

/// The numbers in another context of the nodes that rows have, and of those above them. A row that
/// isn't of the context is answered as want of memory is.
fn moved_row_nodes(
    alloc: Global,
    from: &Context,
    to: &mut Context,
    rows: &SnapshotList,
) -> Result<Vec<Option<NodeNumber>>, OutOfMemory>
    ensures moved { IfOk result (λ moved. AreMovedNodes from.now to.new moved.items) }
    ensures grows { Grows to.old to.new }
{
    let mut moved = nothing_moved(alloc, from.node_count())?;
    let mut way = Vec::new(alloc);
    for place in 0..rows.len() {
        let nodes = rows.nodes(place);
        if !are_below_root(from, nodes) {
            return Err(OutOfMemory);
        }
        move_nodes(from, to, nodes, &mut moved, &mut way)?;
    }
    Ok(moved)
}

/// Adds copies of rows at the end, by the numbers that their attributes and nodes have in another
/// context.
fn append_moved(
    alloc: Global,
    rows: &mut SnapshotList,
    others: &SnapshotList,
    attributes: &[AttributeNumber],
    nodes: &[Option<NodeNumber>],
) -> Result<(), OutOfMemory>
    ensures { OnOk result ((t u : Tree) (ks ls : List ARecord) → IsContext t → IsContext u
        → AreMovedAttributes t u attributes.now → AreMovedNodes t u nodes.now
        → AreRows u rows.old ks → AreRows t others.now ls → AreRows u rows.new (ks ++ ls)) }
{
    for place in 0..others.len() {
        let row = moved_row(alloc, others, place, attributes, nodes)?;
        rows.push(alloc, &row)?;
    }
    Ok(())
}

/// A copy of the row at a place, by the numbers of another context.
fn moved_row(
    alloc: Global,
    rows: &SnapshotList,
    place: usize,
    attributes: &[AttributeNumber],
    nodes: &[Option<NodeNumber>],
) -> Result<Snapshot, OutOfMemory>
    ensures { IfOk result (λ row. (t u : Tree) → AreMovedAttributes t u attributes.now
        → AreMovedNodes t u nodes.now → IsMovedRow t u (nth_numbered rows.now place) row) }
{
    let own = renumbered_nodes(alloc, nodes, rows.nodes(place))?;
    let imms = moved_imms(alloc, attributes, rows.imms(place))?;
    Ok(Snapshot { nodes: own, imms })
}

/// Copies of immediates, by the numbers that their attributes have in another context.
fn moved_imms(
    alloc: Global,
    attributes: &[AttributeNumber],
    imms: &[Immediate],
) -> Result<Vec<Immediate>, OutOfMemory>
    ensures { IfOk result (λ moved. (t u : Tree) → AreMovedAttributes t u attributes.now
        → AreMovedImms t u imms.now moved.items) }
{
    let mut moved = Vec::with_capacity(alloc, imms.len())?;
    for imm in imms {
        let Some(attribute) = attribute_in(attributes, imm.attribute) else {
            return Err(OutOfMemory);
        };
        let value = imm.value.copy(alloc)?;
        moved.push(Immediate { attribute, value })?;
    }
    Ok(moved)
}
