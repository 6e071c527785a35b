ghost use Rattle.std.specs.Prelude.{◌<◌, [], ◌∷◌, filter, length, map, IfOk};
ghost use Rattle.std.specs.List.{All};
ghost use Rattle.cal_rowset.specs.Answers.{AreWithin, rows_of};
ghost use Rattle.cal_rowset.specs.Hierarchy.{hierarchy, is_of_hierarchy};
ghost use Rattle.cal_rowset.specs.NumberedRows.{IsWithin, in_order, meant};
ghost use Rattle.cal_treefmt.specs.Walks.{AreAt, HasNodes, Walks};

use crate::ways::Ways;
use cal_context::{Context, NodeNumber};
use cal_rowset::{Rows, SnapshotList, is_of_hierarchy};
use cal_value::{Attribute, Entry, OutOfMemory, Rec, Variant};
use std::alloc::Global;

/// The nodes of rows, and of each row the node to which its hierarchy leads.
#[derive(Drop)]
pub(crate) struct Nodes {
    pub(crate) context: Context,
    pub(crate) of_rows: Vec<NodeNumber>,
}

impl Nodes {
    pub(crate) fn new(alloc: Global, rows: Rows<'_>) -> Result<Self, OutOfMemory>
        requires { AreWithin rows }
        ensures nodes { IfOk result (λ nodes. HasNodes nodes.context (rows_of rows.entry)) }
        ensures of_rows { IfOk result (λ nodes. AreAt nodes.context
            nodes.of_rows.items (map hierarchy (rows_of rows.entry))) }
    {
        match rows {
            Rows::Owned(rows) => Nodes::of_owned(alloc, rows),
            Rows::Numbered(context, rows, order) => {
                Nodes::of_numbered(alloc, context, rows, order)
            }
        }
    }

    fn of_owned(alloc: Global, rows: &[Rec]) -> Result<Self, OutOfMemory>
        ensures nodes { IfOk result (λ nodes. HasNodes nodes.context rows.now) }
        ensures of_rows { IfOk result (λ nodes. AreAt nodes.context
            nodes.of_rows.items (map hierarchy rows.now)) }
    {
        let mut context = Context::new(alloc);
        let of_rows = add_rows(alloc, &mut context, rows)?;
        Ok(Nodes { context, of_rows })
    }

    /// The same of rows that snapshots mean.
    fn of_numbered(
        alloc: Global,
        numbers: &Context,
        rows: &SnapshotList,
        order: &[usize],
    ) -> Result<Self, OutOfMemory>
        requires { All (IsWithin numbers.now) rows.now }
        ensures nodes { IfOk result (λ nodes. HasNodes nodes.context
            (map (meant numbers.now) (in_order rows.now order.now))) }
        ensures of_rows { IfOk result (λ nodes. AreAt nodes.context
            nodes.of_rows.items
            (map hierarchy (map (meant numbers.now) (in_order rows.now order.now)))) }
    {
        let mut context = Context::seeded(alloc, numbers.seeds());
        let of_rows = add_numbered(alloc, &mut context, numbers, rows, order)?;
        Ok(Nodes { context, of_rows })
    }
}

/// The nodes to which the rows' hierarchies lead, in a context that has none yet.
fn add_rows(
    alloc: Global,
    context: &mut Context,
    rows: &[Rec],
) -> Result<Vec<NodeNumber>, OutOfMemory>
    requires { HasNodes context.old [] }
    ensures nodes { IfOk result (λ of_rows. HasNodes context.new rows.now) }
    ensures of_rows { IfOk result (λ of_rows. AreAt context.new
        of_rows.items (map hierarchy rows.now)) }
{
    let mut of_rows = Vec::with_capacity(alloc, rows.len())?;
    for row in rows {
        let node = add_row(context, row)?;
        of_rows.push(node)?;
    }
    Ok(of_rows)
}

/// The same of rows that snapshots mean. Each node of theirs is walked once for all rows.
fn add_numbered(
    alloc: Global,
    context: &mut Context,
    numbers: &Context,
    rows: &SnapshotList,
    order: &[usize],
) -> Result<Vec<NodeNumber>, OutOfMemory>
    requires within { All (IsWithin numbers.now) rows.now }
    requires nodes { HasNodes context.old [] }
    ensures nodes { IfOk result (λ of_rows. HasNodes context.new
        (map (meant numbers.now) (in_order rows.now order.now))) }
    ensures of_rows { IfOk result (λ of_rows. AreAt context.new of_rows.items
        (map hierarchy (map (meant numbers.now) (in_order rows.now order.now)))) }
{
    let mut ways = Ways::new(alloc, numbers)?;
    let mut of_rows = Vec::with_capacity(alloc, order.len())?;
    for place in order {
        let node = ways.add_row(numbers, rows.nodes(*place), context)?;
        of_rows.push(node)?;
    }
    Ok(of_rows)
}

/// The node to which a row's hierarchy leads.
fn add_row(context: &mut Context, row: &Rec) -> Result<NodeNumber, OutOfMemory>
    ensures { IfOk result (λ n. Walks context.old context.new
        (record { 0 = 0 }) (hierarchy row.now) n) }
{
    context.has_each_once();
    let mut node = NodeNumber::ROOT;
    for path in row.paths.as_slice() {
        node = add_path(context, node, path.as_slice())?;
    }
    Ok(node)
}

fn add_path(
    context: &mut Context,
    from: NodeNumber,
    path: &[Entry],
) -> Result<NodeNumber, OutOfMemory>
    requires { from.0 < length context.old.paths }
    ensures { IfOk result (λ n. Walks context.old context.new from
        (filter (λ e. is_of_hierarchy e.attr) path.now) n) }
{
    let mut node = from;
    for entry in path {
        node = add_entry(context, node, &entry.attr, &entry.value)?;
    }
    Ok(node)
}

/// The node to which an entry of this attribute and value leads.
pub(crate) fn add_entry(
    context: &mut Context,
    parent: NodeNumber,
    attribute: &Attribute,
    value: &Variant,
) -> Result<NodeNumber, OutOfMemory>
    requires { parent.0 < length context.old.paths }
    ensures { IfOk result (λ n. Walks context.old context.new parent
        (filter (λ e. is_of_hierarchy e.attr)
        (record { attr = attribute.now; value = value.now } ∷ [])) n) }
{
    if !is_of_hierarchy(attribute) {
        return Ok(parent);
    }
    add_child(context, parent, attribute, value)
}

fn add_child(
    context: &mut Context,
    parent: NodeNumber,
    attribute: &Attribute,
    value: &Variant,
) -> Result<NodeNumber, OutOfMemory>
    requires { parent.0 < length context.old.paths }
    ensures { IfOk result (λ n. Walks context.old context.new parent
        (record { attr = attribute.now; value = value.now } ∷ []) n) }
{
    let number = context.attribute(attribute)?;
    let node = context.child(parent, number, value)?;
    Ok(node)
}
