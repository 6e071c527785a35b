//! Rows of snapshots, one behind another.

use cal_context::{AttributeNumber, Immediate, NodeNumber, Snapshot};
use cal_rowset::SnapshotList;
use cal_value::{OutOfMemory, Variant};
use std::alloc::Global;

fn immediate() -> Immediate {
    Immediate {
        attribute: AttributeNumber(2),
        value: Variant::Int(7),
    }
}

/// Adds a row of a node and an immediate, and one of nothing.
fn push_first(
    alloc: Global,
    list: &mut SnapshotList,
    row: &mut Snapshot,
) -> Result<(), OutOfMemory> {
    row.nodes.push(NodeNumber(4))?;
    row.imms.push(immediate())?;
    list.push(alloc, row)?;
    row.clear();
    list.push(alloc, row)
}

/// Adds a row of two nodes.
fn push_last(
    alloc: Global,
    list: &mut SnapshotList,
    row: &mut Snapshot,
) -> Result<(), OutOfMemory> {
    row.nodes.push(NodeNumber(1))?;
    row.nodes.push(NodeNumber(3))?;
    list.push(alloc, row)
}

fn fill(alloc: Global, list: &mut SnapshotList, row: &mut Snapshot) -> Result<(), OutOfMemory> {
    push_first(alloc, list, row)?;
    push_last(alloc, list, row)
}

/// Whether a row has a node, this number as its only immediate, and no more.
fn is_first(nodes: &[NodeNumber], imms: &[Immediate]) -> bool {
    let attributes = imms.iter().all(|imm| imm.attribute == AttributeNumber(2));
    let values = imms.iter().all(|imm| imm.value == Variant::Int(7));
    nodes == [NodeNumber(4)].as_slice() && imms.len() == 1 && attributes && values
}

fn is_empty(list: &SnapshotList, row: usize) -> bool {
    list.nodes(row).is_empty() && list.imms(row).is_empty()
}

fn has_rows(list: &SnapshotList) -> bool {
    list.len() == 3
        && is_first(list.nodes(0), list.imms(0))
        && is_empty(list, 1)
        && list.nodes(2) == [NodeNumber(1), NodeNumber(3)].as_slice()
        && list.imms(2).is_empty()
        && is_empty(list, 3)
}

/// Fills a list, and says whether its rows lie one behind another.
fn lie_in_turn(
    alloc: Global,
    list: &mut SnapshotList,
    row: &mut Snapshot,
) -> Result<bool, OutOfMemory> {
    fill(alloc, list, row)?;
    Ok(has_rows(list))
}

/// Fills a list, and says whether the first row is copied over the last.
fn is_copied(
    alloc: Global,
    list: &mut SnapshotList,
    row: &mut Snapshot,
) -> Result<bool, OutOfMemory> {
    fill(alloc, list, row)?;
    list.copy_to(alloc, 2, row)?;
    list.copy_to(alloc, 0, row)?;
    Ok(is_first(&row.nodes, &row.imms))
}

fn with_room(alloc: Global) -> Result<bool, OutOfMemory> {
    let mut row = Snapshot::new(alloc);
    let mut list = SnapshotList::with_room(alloc, 3, 1)?;
    let held = lie_in_turn(alloc, &mut list, &mut row);
    drop(list);
    held
}

fn without_room(alloc: Global) -> Result<bool, OutOfMemory> {
    let mut row = Snapshot::new(alloc);
    let mut list = SnapshotList::new(alloc);
    let held = is_copied(alloc, &mut list, &mut row);
    drop(list);
    held
}

#[test]
fn rows_lie_one_behind_another(rt: HostRuntime) {
    assert!(rt; with_room(rt.alloc()) == Ok(true));
}

#[test]
fn a_row_is_copied_over_another(rt: HostRuntime) {
    assert!(rt; without_room(rt.alloc()) == Ok(true));
}
