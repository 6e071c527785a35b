ghost use Rattle.std.specs.Prelude.{◌≡◌, ℕ, suc, ◌<◌, ◌≤◌, [], ◌++◌, length, map, slice_index_or};
ghost use Rattle.std.specs.Prelude.{option_to_list, IfOk, OnOk};
ghost use Rattle.std.specs.List.{All};
ghost use Rattle.cal_context.specs.Tree.{path_at};
ghost use Rattle.cal_treefmt.specs.Nodes.{below, parent as parent_of};
ghost use Rattle.cal_treefmt.specs.Orders.{AreChildren, AreParents, IsParent, nodes_in};

use crate::chains::Chains;
use cal_context::{Context, NodeNumber};
use cal_value::{OutOfMemory, Seq};
use std::alloc::Global;

/// The places of the nodes from the root down, children in the order of their places.
pub(crate) fn order(alloc: Global, context: &Context) -> Result<Vec<usize>, OutOfMemory>
    ensures within { IfOk result (λ places.
        All (λ k. k < length (nodes_in context.now)) places.items) }
    ensures nodes { IfOk result (λ places. map (λ k. slice_index_or (nodes_in context.now) k [])
        places.items ≡ below (nodes_in context.now) []) }
{
    let children = children(alloc, context)?;
    places(alloc, context, &children)
}

/// The chains of the children of each node. A place is that of a node among those but the root.
fn children(alloc: Global, context: &Context) -> Result<Chains, OutOfMemory>
    ensures { IfOk result (λ chains. AreChildren context.now chains) }
{
    let parents = parents(alloc, context)?;
    Chains::new(alloc, &parents, context.node_count())
}

/// The parents of the nodes but the root.
fn parents(alloc: Global, context: &Context) -> Result<Vec<NodeNumber>, OutOfMemory>
    ensures { IfOk result (λ numbers. AreParents context.now numbers.items) }
{
    context.has_each_once();
    let mut parents = Vec::with_capacity(alloc, context.node_count())?;
    for number in 1..context.node_count() {
        let above = parent(context, number)?;
        parents.push(above)?;
    }
    Ok(parents)
}

// A context has fewer than 2^32 nodes.
fn parent(context: &Context, number: usize) -> Result<NodeNumber, OutOfMemory>
    requires below_root { 0 < number }
    requires within { number < length context.now.paths }
    ensures { IfOk result (λ above. IsParent context.now number above) }
{
    let Ok(number) = u32::try_from(number) else {
        return Err(OutOfMemory);
    };
    match context.link(NodeNumber(number)) {
        Some(link) => Ok(link.parent),
        None => Ok(NodeNumber::ROOT),
    }
}

/// The same by the chains of the children.
fn places(alloc: Global, context: &Context, children: &Chains) -> Result<Vec<usize>, OutOfMemory>
    requires { AreChildren context.now children.now }
    ensures within { IfOk result (λ places.
        All (λ k. k < length (nodes_in context.now)) places.items) }
    ensures nodes { IfOk result (λ places. map (λ k. slice_index_or (nodes_in context.now) k [])
        places.items ≡ below (nodes_in context.now) []) }
{
    context.has_each_once();
    let mut order = Vec::with_capacity(alloc, context.node_count())?;
    let mut left = Seq::new(alloc);
    let first = children.first(0);
    push_some(&mut left, first)?;
    while let Some(place) = left.pop() {
        order.push(place)?;
        let beside = children.next(place);
        push_some(&mut left, beside)?;
        let below = children.first(place + 1);
        push_some(&mut left, below)?;
    }
    Ok(order)
}

fn push_some(left: &mut Seq<usize>, place: Option<usize>) -> Result<(), OutOfMemory>
    ensures { OnOk result (left.new ≡ left.old ++ option_to_list place) }
{
    if let Some(place) = place {
        left.push(place)?;
    }
    Ok(())
}
