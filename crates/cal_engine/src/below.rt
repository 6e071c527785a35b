ghost use Rattle.std.specs.Prelude.{◌≡◌, ◌<◌, [], List, length, fold, map, replicate};
ghost use Rattle.std.specs.Prelude.{slice_index_or, All, IfOk};
ghost use Rattle.cal_value.specs.declared.attribute.Entry.{Entry as AnEntry};
ghost use Rattle.cal_value.specs.declared.record.Rec.{Rec as ARecord};
ghost use Rattle.cal_engine.specs.Finishing.{parts_where};
ghost use Rattle.cal_keys.specs.Keys.{key_in};
ghost use Rattle.cal_parts.specs.Parts.{merged_parts as merged_by_place};
ghost use Rattle.cal_engine.specs.Rows.{is_below};
ghost use Rattle.cal_engine.specs.Totals.{AreTotals};
ghost use Rattle.cal_keys.specs.Leading.{AreWaysBehind};

use crate::upwards::add_upwards;
use cal_context::{Context, NodeNumber};
use cal_keys::{KeyTable, own_ways, ways_to, ways_to_keys};
use cal_parts::{Part, PartTable};
use cal_value::{OutOfMemory, Rec, Seq, TryCopy};
use std::alloc::Global;

/// The parts of the groups at or below each group, taken together. Each group's hierarchy is walked
/// once down and once up, so that no two groups are compared.
pub(crate) fn parts_below(
    alloc: Global,
    keys: &[Rec],
    parts: &PartTable,
    none: &Seq<Part>,
) -> Result<Vec<Seq<Part>>, OutOfMemory>
    requires { length parts.now ≡ length keys.now }
    ensures { IfOk result (λ below. below.items ≡ map (λ key. fold merged_by_place none.now
        (parts_where (is_below key) keys.now parts.now)) keys.now) }
{
    let mut context = Context::new(alloc);
    parts_below_in(alloc, &mut context, keys, parts, none)
}

/// The same, by ways in a context that is empty.
fn parts_below_in(
    alloc: Global,
    context: &mut Context,
    keys: &[Rec],
    parts: &PartTable,
    none: &Seq<Part>,
) -> Result<Vec<Seq<Part>>, OutOfMemory>
    requires { length parts.now ≡ length keys.now }
    ensures { IfOk result (λ below. below.items ≡ map (λ key. fold merged_by_place none.now
        (parts_where (is_below key) keys.now parts.now)) keys.now) }
{
    let nodes = ways_to(alloc, context, keys)?;
    gathered_below(alloc, context, &nodes, parts, none)
}

/// The same of groups whose keys lie in a tree. Where their nodes may stand for the ways to them,
/// no way is made.
pub(crate) fn parts_below_keys(
    alloc: Global,
    tree: &Context,
    keys: &KeyTable,
    parts: &PartTable,
    none: &Seq<Part>,
) -> Result<Vec<Seq<Part>>, OutOfMemory>
    requires { length parts.now ≡ length keys.now }
    ensures { IfOk result (λ below. below.items ≡ map (λ key. fold merged_by_place none.now
        (parts_where (is_below key) (map (key_in tree.now) keys.now) parts.now))
        (map (key_in tree.now) keys.now)) }
{
    if let Some(nodes) = own_ways(alloc, tree, keys)? {
        let below = gathered_below(alloc, tree, &nodes, parts, none)?;
        return Ok(below);
    }
    parts_below_ways(alloc, tree, keys, parts, none)
}

/// The same, by ways that are made.
fn parts_below_ways(
    alloc: Global,
    tree: &Context,
    keys: &KeyTable,
    parts: &PartTable,
    none: &Seq<Part>,
) -> Result<Vec<Seq<Part>>, OutOfMemory>
    requires { length parts.now ≡ length keys.now }
    ensures { IfOk result (λ below. below.items ≡ map (λ key. fold merged_by_place none.now
        (parts_where (is_below key) (map (key_in tree.now) keys.now) parts.now))
        (map (key_in tree.now) keys.now)) }
{
    let mut context = Context::seeded(alloc, tree.seeds());
    parts_below_ways_in(alloc, &mut context, tree, keys, parts, none)
}

/// The same, by ways in a context that is empty.
fn parts_below_ways_in(
    alloc: Global,
    context: &mut Context,
    tree: &Context,
    keys: &KeyTable,
    parts: &PartTable,
    none: &Seq<Part>,
) -> Result<Vec<Seq<Part>>, OutOfMemory>
    requires { length parts.now ≡ length keys.now }
    ensures { IfOk result (λ below. below.items ≡ map (λ key. fold merged_by_place none.now
        (parts_where (is_below key) (map (key_in tree.now) keys.now) parts.now))
        (map (key_in tree.now) keys.now)) }
{
    let nodes = ways_to_keys(alloc, context, tree, keys)?;
    gathered_below(alloc, context, &nodes, parts, none)
}

/// The parts of the groups below each group, by the nodes to which the ways to them lead.
fn gathered_below(
    alloc: Global,
    context: &Context,
    nodes: &[NodeNumber],
    parts: &PartTable,
    none: &Seq<Part>,
) -> Result<Vec<Seq<Part>>, OutOfMemory>
    requires within { All (λ n. n.0 < length context.now.paths) nodes.now }
    requires alike { length parts.now ≡ length nodes.now }
    ensures { IfOk result (λ below. (front : List AnEntry) (keys : List ARecord)
        → AreWaysBehind context.now front keys nodes.now → below.items
        ≡ map (λ key. fold merged_by_place none.now
        (parts_where (is_below key) keys parts.now)) keys) }
{
    let totals = totals(alloc, context, nodes, parts, none)?;
    let below = picked(alloc, nodes, &totals)?;
    Ok(below)
}

/// The parts of the groups below each node, taken together.
fn totals(
    alloc: Global,
    context: &Context,
    nodes: &[NodeNumber],
    parts: &PartTable,
    none: &Seq<Part>,
) -> Result<Vec<Seq<Part>>, OutOfMemory>
    requires within { All (λ n. n.0 < length context.now.paths) nodes.now }
    requires alike { length parts.now ≡ length nodes.now }
    ensures { IfOk result (λ totals.
        AreTotals context.now nodes.now parts.now none.now totals.items) }
{
    let mut totals = copies(alloc, none, context.node_count())?;
    for (number, node) in nodes.iter().enumerate() {
        let own = parts.at(alloc, number)?;
        add_upwards(alloc, context, *node, &own, &mut totals)?;
    }
    Ok(totals)
}

fn copies(alloc: Global, parts: &Seq<Part>, count: usize) -> Result<Vec<Seq<Part>>, OutOfMemory>
    ensures { IfOk result (λ copies. copies.items ≡ replicate count parts.now) }
{
    let mut copies = Vec::with_capacity(alloc, count)?;
    for place in 0..count {
        let _ = place;
        copies.push(parts.copy(alloc)?)?;
    }
    Ok(copies)
}

/// The totals at nodes.
fn picked(
    alloc: Global,
    nodes: &[NodeNumber],
    totals: &[Seq<Part>],
) -> Result<Vec<Seq<Part>>, OutOfMemory>
    requires { All (λ n. n.0 < length totals.now) nodes.now }
    ensures { IfOk result (λ picked. picked.items
        ≡ map (λ n. slice_index_or totals.now n.0 []) nodes.now) }
{
    let mut picked = Vec::with_capacity(alloc, nodes.len())?;
    for node in nodes {
        picked.push(totals[node.0 as usize].copy(alloc)?)?;
    }
    Ok(picked)
}
