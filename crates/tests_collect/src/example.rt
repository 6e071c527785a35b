//! The snapshots of the example, by their parts, and the rows that they come to.
ghost use Rattle.std.specs.Prelude.{◌<◌, IfOk, All};
ghost use Rattle.cal_table.specs.Snapshots.{HasNumberOf64};

use cal_snap::{NumberedEntry, NumberedSnap};
use cal_table::{KeyNodes, TableKey};
use cal_value::{OutOfMemory, Seq, Variant};
use cal_words::NodeId;
use std::alloc::Global;

/// The attributes by their numbers: two keys, the value attribute, and another one.
const RANK: u32 = 0;

const PHASE: u32 = 1;

const TIME: u32 = 2;

const OTHER: u32 = 3;

/// The nodes of a snapshot, the attributes of its entries, and their numbers.
pub(crate) type Given = (&'static [u32], &'static [u32], &'static [i64]);

const SNAPSHOTS: [Given; 8] = [
    (&[5], &[RANK, PHASE, TIME], &[0, 1, 10]),
    (&[5], &[RANK, PHASE, TIME, OTHER], &[0, 1, 30, 9]),
    (&[5, 8, 13], &[RANK, PHASE, TIME], &[1, 1, 7]),
    (&[5], &[RANK, TIME, PHASE, TIME], &[0, 400, 2, 6]),
    (&[5, 8], &[RANK, PHASE, TIME], &[0, 1, 100]),
    (&[5], &[OTHER, RANK, PHASE], &[77, 0, 1]),
    (&[], &[OTHER], &[3]),
    (&[5], &[RANK, PHASE, TIME], &[0, 1, -2]),
];

pub(crate) fn snapshots() -> &'static [Given] {
    &SNAPSHOTS
}

/// A row: the nodes and the entries of its key, how many snapshots have it, and of their times the
/// sum, the least and the greatest, where there is one.
pub(crate) type Wanted = (
    &'static [u32],
    &'static [u32],
    &'static [i64],
    i128,
    Option<(i128, i128, i128)>,
);

const ROWS: [Wanted; 5] = [
    (&[5], &[RANK, PHASE], &[0, 1], 4, Some((38, -2, 30))),
    (&[5, 8, 13], &[RANK, PHASE], &[1, 1], 1, Some((7, 7, 7))),
    (&[5], &[RANK, PHASE], &[0, 2], 1, Some((6, 6, 6))),
    (&[5, 8], &[RANK, PHASE], &[0, 1], 1, Some((100, 100, 100))),
    (&[], &[], &[], 1, None),
];

pub(crate) fn rows() -> &'static [Wanted] {
    &ROWS
}

fn entry_of(attribute: u32, number: i64) -> NumberedEntry
    requires { attribute < 4 }
    ensures known { result.attribute < 4 }
    ensures number { HasNumberOf64 result }
{
    NumberedEntry {
        attribute,
        value: Variant::Int(number as i128),
    }
}

// The entries of attributes of the example.
fn entries_of(
    alloc: Global,
    attrs: &[u32],
    numbers: &[i64],
) -> Result<Vec<NumberedEntry>, OutOfMemory>
    ensures known { IfOk result (λ entries. All (λ e. e.attribute < 4) entries.items) }
    ensures numbers { IfOk result (λ entries. All HasNumberOf64 entries.items) }
{
    let mut entries = Vec::new(alloc);
    for place in 0..attrs.len().min(numbers.len()) {
        entries.push(entry_of(attrs[place].min(OTHER), numbers[place]))?;
    }
    Ok(entries)
}

fn nodes_of(alloc: Global, given: &[u32]) -> Result<Vec<NodeId>, OutOfMemory> {
    let mut nodes = Vec::new(alloc);
    for node in given {
        nodes.push(NodeId(*node))?;
    }
    Ok(nodes)
}

/// The snapshot of these nodes and entries.
pub(crate) fn snapshot(alloc: Global, given: Given) -> Result<NumberedSnap, OutOfMemory>
    ensures known { IfOk result (λ snap. All (λ e. e.attribute < 4) snap.imms.items) }
    ensures numbers { IfOk result (λ snap. All HasNumberOf64 snap.imms.items) }
{
    Ok(NumberedSnap {
        refs: nodes_of(alloc, given.0)?,
        imms: entries_of(alloc, given.1, given.2)?,
    })
}

/// The key of these nodes and entries.
pub(crate) fn key_of(alloc: Global, given: Given) -> Result<TableKey, OutOfMemory> {
    Ok(TableKey {
        refs: KeyNodes::from_slice(alloc, &nodes_of(alloc, given.0)?)?,
        imms: Seq::from_vec(entries_of(alloc, given.1, given.2)?),
    })
}
