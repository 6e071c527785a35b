ghost use Rattle.std.specs.Prelude.{◌≡◌, ◌<◌, List, ◌∷◌, ◌++◌, length, map, suc, IfOk, OnOk};
ghost use Rattle.std.specs.Prelude.{slice_index_or, [], None};
ghost use Rattle.std.specs.List.{All};
ghost use Rattle.cal_value.specs.declared.record.Rec.{Rec};
ghost use Rattle.cal_context.specs.Tree.{path_at};
ghost use Rattle.cal_treefmt.specs.Lines.{label, node_lines, row_lines, tree_lines};
ghost use Rattle.cal_treefmt.specs.Orders.{nodes_in};
ghost use Rattle.cal_treefmt.specs.Plans.{IsPlan, IsPlanOf, IsPlaceOf, IsWithin, left_rows};
ghost use Rattle.cal_treefmt.specs.Plans.{shown};

use crate::plan::Plan;
use cal_context::NodeNumber;
use cal_value::OutOfMemory;
use std::alloc::Global;

/// A line: its node, and the place of its row, if it shows one.
#[derive(Debug, Drop)]
pub(crate) struct Line {
    pub(crate) node: NodeNumber,
    pub(crate) row: Option<usize>,
}

/// The line at a place.
pub(crate) fn line_at(lines: &[Line], place: usize) -> &Line
    requires { place < length lines.now }
    ensures { result.now ≡ slice_index_or lines.now place result.now }
{
    &lines[place]
}

/// The lines of the rows of a plan.
pub(crate) fn lines(alloc: Global, plan: &Plan) -> Result<Vec<Line>, OutOfMemory>
    requires { IsPlanOf plan.now }
    ensures within { IfOk result (λ lines. All (IsWithin plan.now.context) lines.items) }
    ensures shown { IfOk result (λ lines. (rows : List Rec) → IsPlan plan.now rows
        → map (shown plan.now.context rows) lines.items ≡ tree_lines rows) }
{
    let mut lines = Vec::new(alloc);
    let first = plan.rows.first(0);
    push_rows(&mut lines, plan, NodeNumber::ROOT, first)?;
    for place in &plan.order {
        push_node(&mut lines, plan, *place)?;
    }
    Ok(lines)
}

/// Adds the lines of a node.
fn push_node(lines: &mut Vec<Line>, plan: &Plan, place: usize) -> Result<(), OutOfMemory>
    requires plan { IsPlanOf plan.now }
    requires place { place < length (nodes_in plan.now.context) }
    ensures within { OnOk result (All (IsWithin plan.now.context) lines.old.items
        → All (IsWithin plan.now.context) lines.new.items) }
    ensures shown { OnOk result ((rows : List Rec) → IsPlan plan.now rows
        → map (shown plan.now.context rows) lines.new.items
        ≡ map (shown plan.now.context rows) lines.old.items
        ++ node_lines rows (slice_index_or (nodes_in plan.now.context) place [])) }
{
    let node = numbered(place)?;
    let first = plan.rows.first(node.0 as usize);
    match first {
        Some(row) => push_rows(lines, plan, node, Some(row)),
        None => push_line(lines, plan, node),
    }
}

/// Adds a line without a row.
fn push_line(lines: &mut Vec<Line>, plan: &Plan, node: NodeNumber) -> Result<(), OutOfMemory>
    requires { node.0 < length plan.now.context.paths }
    ensures within { OnOk result (All (IsWithin plan.now.context) lines.old.items
        → All (IsWithin plan.now.context) lines.new.items) }
    ensures shown { OnOk result ((rows : List Rec) → map (shown plan.now.context rows)
        lines.new.items ≡ map (shown plan.now.context rows) lines.old.items
        ++ record { label = label (path_at plan.now.context node); row = None } ∷ []) }
{
    lines.push(Line { node, row: None })?;
    Ok(())
}

/// Adds a line for a row and each later one at its node.
fn push_rows(
    lines: &mut Vec<Line>,
    plan: &Plan,
    node: NodeNumber,
    from: Option<usize>,
) -> Result<(), OutOfMemory>
    requires plan { IsPlanOf plan.now }
    requires node { node.0 < length plan.now.context.paths }
    requires from { IsPlaceOf plan.now from }
    ensures within { OnOk result (All (IsWithin plan.now.context) lines.old.items
        → All (IsWithin plan.now.context) lines.new.items) }
    ensures shown { OnOk result ((rows : List Rec) → IsPlan plan.now rows
        → map (shown plan.now.context rows) lines.new.items
        ≡ map (shown plan.now.context rows) lines.old.items
        ++ row_lines (label (path_at plan.now.context node)) (left_rows rows from)) }
{
    let mut from = from;
    while let Some(row) = from {
        lines.push(Line {
            node,
            row: Some(row),
        })?;
        from = plan.rows.next(row);
    }
    Ok(())
}

// The number of the node at a place. A context has fewer than 2^32 nodes.
fn numbered(place: usize) -> Result<NodeNumber, OutOfMemory>
    ensures { IfOk result (λ number. number.0 ≡ suc place) }
{
    match u32::try_from(place) {
        Ok(place) if place < u32::MAX => Ok(NodeNumber(place + 1)),
        _ => Err(OutOfMemory),
    }
}
