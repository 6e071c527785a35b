ghost use Rattle.std.specs.Prelude.{◌<◌, IsTrue, length, All};
ghost use Rattle.cal_context.specs.Snapshots.{IsBelowRoot, IsIn};
ghost use Rattle.cal_rowset.specs.NumberedRows.{IsWithin, nth_numbered};

use cal_context::{Context, Immediate, NodeNumber, Snapshot};
use cal_rowset::SnapshotList;

/// Whether rows by number are about a context.
pub fn are_in(context: &Context, rows: &SnapshotList) -> bool
    ensures { IsTrue result → All (IsWithin context.now) rows.now }
{
    for place in 0..rows.len() {
        if !is_row_in(context, rows, place) {
            return false;
        }
    }
    true
}

fn is_row_in(context: &Context, rows: &SnapshotList, place: usize) -> bool
    ensures { IsTrue result → IsWithin context.now (nth_numbered rows.now place) }
{
    are_below_root(context, rows.nodes(place)) && have_attributes(context, rows.imms(place))
}

/// Whether a snapshot is about a context.
pub fn is_in(context: &Context, row: &Snapshot) -> bool
    ensures { IsTrue result → IsIn context.now row.now }
{
    are_below_root(context, &row.nodes) && have_attributes(context, &row.imms)
}

/// Whether nodes are those of a context, below its root.
pub(crate) fn are_below_root(context: &Context, nodes: &[NodeNumber]) -> bool
    ensures { IsTrue result → All (IsBelowRoot context.now) nodes.now }
{
    nodes.iter().all(|node| is_below_root(context, *node))
}

fn is_below_root(context: &Context, node: NodeNumber) -> bool
    ensures { IsTrue result → IsBelowRoot context.now node }
{
    node.0 > 0 && (node.0 as usize) < context.node_count()
}

fn have_attributes(context: &Context, imms: &[Immediate]) -> bool
    ensures { IsTrue result
        → All (λ i. i.attribute.0 < length context.now.attributes) imms.now }
{
    imms.iter().all(|imm| has_attribute(context, imm))
}

fn has_attribute(context: &Context, imm: &Immediate) -> bool
    ensures { IsTrue result → imm.now.attribute.0 < length context.now.attributes }
{
    (imm.attribute.0 as usize) < context.attribute_count()
}
