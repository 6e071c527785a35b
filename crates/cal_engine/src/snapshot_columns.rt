ghost use Rattle.std.specs.Prelude.{◌≡◌, ◌<◌, false, true, length, map, IfOk, OnOk};
ghost use Rattle.std.specs.List.{All, flat_map, list_any};
ghost use Rattle.cal_context.specs.Snapshots.{IsBelowRoot};
ghost use Rattle.cal_context.specs.Tree.{attribute_at, path_at};
ghost use Rattle.cal_rowset.specs.Hierarchy.{hierarchy, is_of_hierarchy as is_nested};
ghost use Rattle.cal_rowset.specs.Hierarchy.{other_entries};
ghost use Rattle.cal_rowset.specs.NumberedRows.{IsWithin, in_order, meant, nth_numbered};
ghost use Rattle.cal_value.specs.Flat.{joined};
ghost use Rattle.cal_engine.specs.Answers.{columns_of as columns_by, plain_column};
ghost use Rattle.cal_engine.specs.Answers.{shown_names};
ghost use Rattle.cal_keys.specs.Groups.{has_entries};
ghost use Rattle.cal_engine.specs.Learning.{learned, names_beside};
ghost use Rattle.cal_engine.specs.Visiting.{IsLearned, IsPlain, KnowsNames, MetWith};

use crate::columns::{add_columns, first_names, group_columns, item_columns};
use crate::shown_names::ShownNames;
use crate::visits::Visits;
use cal_context::{AttributeNumber, Context, NodeNumber};
use cal_ql::Query;
use cal_rowset::{Column, SnapshotList, is_of_hierarchy};
use cal_seeds::Seeds;
use cal_value::{OutOfMemory, Seq, Text};
use indexmap::IndexSet;
use std::alloc::Global;

/// The columns of an answer with these rows.
pub(crate) fn snapshot_columns(
    alloc: Global,
    query: &Query,
    context: &Context,
    rows: &SnapshotList,
    order: &[usize],
) -> Result<Seq<Column>, OutOfMemory>
    requires { All (IsWithin context.now) rows.now }
    ensures { IfOk result (λ columns. columns
        ≡ columns_by query.now query.now.select
        (map (meant context.now) (in_order rows.now order.now))) }
{
    if let Some(items) = &query.select {
        item_columns(alloc, items.as_slice())
    } else if let Some(names) = &query.group {
        group_columns(alloc, names.as_slice(), query.aggs.as_slice())
    } else {
        shown_columns(alloc, context, rows, order)
    }
}

/// The names that rows show, as columns.
fn shown_columns(
    alloc: Global,
    context: &Context,
    rows: &SnapshotList,
    order: &[usize],
) -> Result<Seq<Column>, OutOfMemory>
    requires { All (IsWithin context.now) rows.now }
    ensures { IfOk result (λ columns. columns
        ≡ map plain_column (shown_names (map (meant context.now) (in_order rows.now order.now)))) }
{
    let names = shown(alloc, context, rows, order)?;
    let mut columns = Vec::new(alloc);
    add_columns(alloc, &mut columns, names.as_slice())?;
    Ok(Seq::from_vec(columns))
}

#[tactic(auto, using(crate::proofs::Learned::learned_shown))]
fn shown(
    alloc: Global,
    context: &Context,
    rows: &SnapshotList,
    order: &[usize],
) -> Result<IndexSet<Text, Seeds>, OutOfMemory>
    requires { All (IsWithin context.now) rows.now }
    ensures { IfOk result (λ names.
        names.keys ≡ shown_names (map (meant context.now) (in_order rows.now order.now))) }
{
    let nested = some_hierarchy(alloc, context, rows, order)?;
    let first = first_names(alloc, context.seeds(), nested)?;
    let mut shown = ShownNames::new(alloc, context, first)?;
    learn_rows(alloc, &mut shown, context, rows, order)?;
    Ok(shown.names)
}

/// Whether some row has entries of the hierarchy.
fn some_hierarchy(
    alloc: Global,
    context: &Context,
    rows: &SnapshotList,
    order: &[usize],
) -> Result<bool, OutOfMemory>
    requires { All (IsWithin context.now) rows.now }
    ensures { IfOk result (λ some. some
        ≡ list_any (λ row. has_entries (hierarchy row))
        (map (meant context.now) (in_order rows.now order.now))) }
{
    let mut visits = Visits::new(alloc, context)?;
    for place in order {
        if some_nested(context, rows.nodes(*place), &mut visits)? {
            return Ok(true);
        }
    }
    Ok(false)
}

/// Whether some path has entries of the hierarchy, where those of nodes that were met have none.
fn some_nested(
    context: &Context,
    nodes: &[NodeNumber],
    visits: &mut Visits,
) -> Result<bool, OutOfMemory>
    requires within { All (IsBelowRoot context.now) nodes.now }
    requires met { MetWith IsPlain context.now visits.old }
    ensures met { IfOk result (λ some. some ≡ false → MetWith IsPlain context.now visits.new) }
    ensures some { IfOk result (λ some. some ≡ list_any (λ path. list_any
        (λ e. is_nested e.attr) path) (map (path_at context.now) nodes.now)) }
{
    for node in nodes {
        let _ = visits.visit(context, *node)?;
        if has_nested(context, &visits.trail) {
            return Ok(true);
        }
    }
    Ok(false)
}

fn has_nested(context: &Context, trail: &[AttributeNumber]) -> bool
    requires { All (λ a. a.0 < length context.now.attributes) trail.now }
    ensures { result ≡ list_any is_nested (map (attribute_at context.now) trail.now) }
{
    for attribute in trail {
        if is_of_hierarchy(context.attribute_at(*attribute)) {
            return true;
        }
    }
    false
}

/// Learns the names of the entries of rows, those of hierarchies aside. Each node is looked at
/// once, however many rows have it on their paths.
fn learn_rows(
    alloc: Global,
    shown: &mut ShownNames,
    context: &Context,
    rows: &SnapshotList,
    order: &[usize],
) -> Result<(), OutOfMemory>
    requires within { All (IsWithin context.now) rows.now }
    requires knows { KnowsNames context.now shown.old }
    ensures { OnOk result (shown.new.names.keys ≡ learned shown.old.names.keys
        (flat_map (λ row. map (λ e. e.attr.name) (other_entries row))
        (map (meant context.now) (in_order rows.now order.now)))) }
{
    let mut visits = Visits::new(alloc, context)?;
    for place in order {
        learn_row(alloc, shown, context, rows, *place, &mut visits)?;
    }
    Ok(())
}

/// Learns the names of the entries of a row, where those on the paths of nodes that were met are
/// learned.
fn learn_row(
    alloc: Global,
    shown: &mut ShownNames,
    context: &Context,
    rows: &SnapshotList,
    place: usize,
    visits: &mut Visits,
) -> Result<(), OutOfMemory>
    requires within { All (IsWithin context.now) rows.now }
    requires knows { KnowsNames context.now shown.old }
    requires met { MetWith (IsLearned shown.old.names.keys) context.now visits.old }
    ensures knows { OnOk result (KnowsNames context.now shown.new) }
    ensures met { OnOk result
        (MetWith (IsLearned shown.new.names.keys) context.now visits.new) }
    ensures learned { OnOk result (shown.new.names.keys ≡ learned shown.old.names.keys
        (map (λ e. e.attr.name)
        (other_entries (meant context.now (nth_numbered rows.now place))))) }
{
    learn_nodes(alloc, shown, context, rows.nodes(place), visits)?;
    shown.learn_immediates(alloc, context, rows.imms(place))?;
    Ok(())
}

/// Learns the names on the paths of nodes, in the same way.
fn learn_nodes(
    alloc: Global,
    shown: &mut ShownNames,
    context: &Context,
    nodes: &[NodeNumber],
    visits: &mut Visits,
) -> Result<(), OutOfMemory>
    requires within { All (IsBelowRoot context.now) nodes.now }
    requires knows { KnowsNames context.now shown.old }
    requires met { MetWith (IsLearned shown.old.names.keys) context.now visits.old }
    ensures knows { OnOk result (KnowsNames context.now shown.new) }
    ensures met { OnOk result
        (MetWith (IsLearned shown.new.names.keys) context.now visits.new) }
    ensures learned { OnOk result (shown.new.names.keys ≡ learned shown.old.names.keys
        (names_beside true (joined (map (path_at context.now) nodes.now)))) }
{
    for node in nodes {
        let _ = visits.visit(context, *node)?;
        shown.learn_trail(alloc, context, &visits.trail)?;
    }
    Ok(())
}
