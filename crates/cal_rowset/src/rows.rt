use crate::SnapshotList;
use cal_context::Context;
use cal_value::Rec;

/// The rows of an answer as they are kept: with entries of their own, or as snapshots of a context,
/// beside the places of a list in their order.
pub enum Rows<'a> {
    Owned(&'a [Rec]),
    Numbered(&'a Context, &'a SnapshotList, &'a [usize]),
}
