ghost use Rattle.std.specs.Prelude.{◌≡◌, List, map, IfOk};
ghost use Rattle.std.specs.List.{All};
ghost use Rattle.cal_context.specs.Tree.{Grows};
ghost use Rattle.cal_ql.specs.declared.query.Agg.{Agg as AnAgg};
ghost use Rattle.cal_rowset.specs.NumberedRows.{IsWithin, in_order, meant};
ghost use Rattle.cal_value.specs.declared.record.Rec.{Rec as ARecord};
ghost use Rattle.cal_keys.specs.Groups.{groups_of};
ghost use Rattle.cal_engine.specs.Making.{MakesRows};
ghost use Rattle.cal_engine.specs.Numbered.{AreGroups};
ghost use Rattle.cal_engine.specs.Rows.{row_of, rows_of};
ghost use Rattle.cal_engine.specs.Sorting.{sorted_rows};
ghost use Rattle.cal_engine.specs.Tallies.{HoldsIn};

use crate::fold::is_aggregated;
use crate::grouped_rows::GroupedRows;
use crate::numbered::NumberedGroups;
use crate::snapshot_order::sorted_places;
use cal_context::{Context, Snapshot};
use cal_keys::are_in;
use cal_ql::Query;
use cal_rowset::SnapshotList;
use cal_value::OutOfMemory;
use std::alloc::Global;

/// Rows by number, and their places in the order of an answer.
#[derive(Drop)]
pub(crate) struct OrderedRows {
    pub(crate) rows: SnapshotList,
    pub(crate) order: Vec<usize>,
}

/// The rows of an answer in their order, as snapshots of the context in which the keys of groups
/// lie, or the kept records. The attributes of results are added to it. Rows that aren't about the
/// context are answered as want of memory is.
pub(crate) fn ordered_rows(
    alloc: Global,
    query: &Query,
    context: &mut Context,
    groups: NumberedGroups,
    kept: SnapshotList,
) -> Result<OrderedRows, OutOfMemory>
    ensures within { IfOk result (λ made. All (IsWithin context.new) made.rows) }
    ensures rows { IfOk result (λ made. (ks : List ARecord)
        → HoldsIn context.old query.now ks groups kept
        → map (meant context.new) (in_order made.rows made.order.items)
        ≡ sorted_rows query.now.order (rows_of query.now ks)) }
    ensures grows { Grows context.old context.new }
{
    let rows = made_rows(alloc, query, context, groups, kept)?;
    if !are_in(context, &rows) {
        return Err(OutOfMemory);
    }
    let order = sorted_places(alloc, &query.order, context, &rows)?;
    Ok(OrderedRows { rows, order })
}

/// The rows of an answer before they are ordered.
fn made_rows(
    alloc: Global,
    query: &Query,
    context: &mut Context,
    groups: NumberedGroups,
    kept: SnapshotList,
) -> Result<SnapshotList, OutOfMemory>
    ensures rows { IfOk result (λ rows. (ks : List ARecord)
        → HoldsIn context.old query.now ks groups kept
        → map (meant context.new) rows ≡ rows_of query.now ks) }
    ensures grows { Grows context.old context.new }
{
    if is_aggregated(query) {
        return rows_of_groups(alloc, query, context, groups);
    }
    context.has_each_once();
    Ok(kept)
}

/// The rows of the groups of an aggregated query.
fn rows_of_groups(
    alloc: Global,
    query: &Query,
    context: &mut Context,
    groups: NumberedGroups,
) -> Result<SnapshotList, OutOfMemory>
    ensures rows { IfOk result (λ rows. (ks : List ARecord)
        → AreGroups context.old query.now ks groups → map (meant context.new) rows
        ≡ map (row_of query.now ks) (groups_of query.now.group ks)) }
    ensures grows { Grows context.old context.new }
{
    let made = GroupedRows::new(alloc, query, groups, context)?;
    all_rows(alloc, &made, context)
}

/// All rows of groups.
fn all_rows(
    alloc: Global,
    made: &GroupedRows,
    context: &Context,
) -> Result<SnapshotList, OutOfMemory>
    ensures { IfOk result (λ all. (aggs : List AnAgg) (rows : List ARecord)
        → MakesRows context.now aggs made.now rows → map (meant context.now) all ≡ rows) }
{
    let mut all = SnapshotList::with_room(alloc, made.count(), made.width())?;
    let mut row = Snapshot::new(alloc);
    for number in 0..made.count() {
        made.fill(context, number, &mut row)?;
        all.push(alloc, &row)?;
    }
    Ok(all)
}
