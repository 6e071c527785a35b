//! The nodes of a context in the order in which their paths likely come.
use cal_context::{AttributeNumber, Context, NodeNumber};
use cal_engine::GroupedRows;
use cal_value::{Attribute, OutOfMemory, Variant};
use std::alloc::Global;
use std::cmp::Ordering;

/// Where the lists of a node go on, which end at the root, as it is behind no other node.
#[derive(Clone, Copy)]
pub(crate) struct Step {
    /// The child that was added last.
    child: NodeNumber,
    /// The sibling that was added before; once the parent's children are in order, the node that
    /// likely comes next in the order of paths.
    next: NodeNumber,
}

/// A child of a node, beside its own entry.
#[derive(Clone, Copy)]
struct Sibling<'a> {
    node: NodeNumber,
    attribute: AttributeNumber,
    attr: &'a Attribute,
    value: &'a Variant,
}

/// The nodes of a context, one list of them from the root on, in the order in which their paths
/// likely come: behind each node its children, by their entries. Nothing is promised of that list,
/// so what is made of it is only a guess. Where the rows are few beside the nodes there is none,
/// since that would take longer than it saves: time and memory for each node, and comparisons of
/// siblings.
pub(crate) fn likely_steps(
    alloc: Global,
    context: &Context,
    rows: usize,
) -> Result<Vec<Step>, OutOfMemory> {
    if rows < context.node_count() / 16 {
        return Ok(Vec::new(alloc));
    }
    let mut steps = first_steps(alloc, context)?;
    let mut siblings = Vec::new(alloc);
    for number in 0..context.node_count() {
        let Ok(number) = u32::try_from(number) else {
            return Err(OutOfMemory);
        };
        order_children(context, NodeNumber(number), &mut steps, &mut siblings)?;
    }
    Ok(steps)
}

/// Each node on the list of its parent's children.
fn first_steps(alloc: Global, context: &Context) -> Result<Vec<Step>, OutOfMemory> {
    let mut steps = Vec::with_capacity(alloc, context.node_count())?;
    for number in 0..context.node_count() {
        let next = match parent_of(context, number) {
            Some(parent) => put_child(&mut steps, parent, number),
            None => NodeNumber::ROOT,
        };
        steps.push(Step {
            child: NodeNumber::ROOT,
            next,
        })?;
    }
    Ok(steps)
}

fn parent_of(context: &Context, number: usize) -> Option<NodeNumber> {
    if number >= context.node_count() {
        return None;
    }
    let link = context.link(NodeNumber(u32::try_from(number).ok()?))?;
    Some(link.parent)
}

/// Puts a child before the others of a node, of which the first is answered.
fn put_child(steps: &mut [Step], parent: NodeNumber, number: usize) -> NodeNumber {
    let Ok(child) = u32::try_from(number) else {
        return NodeNumber::ROOT;
    };
    match steps.get_mut(parent.0 as usize) {
        Some(step) => {
            let before = step.child;
            step.child = NodeNumber(child);
            before
        }
        None => NodeNumber::ROOT,
    }
}

/// Puts the children of a node behind it, by their entries.
fn order_children<'a>(
    context: &'a Context,
    node: NodeNumber,
    steps: &mut [Step],
    siblings: &mut Vec<Sibling<'a>>,
) -> Result<(), OutOfMemory> {
    siblings.clear();
    find_children(context, node, steps, siblings)?;
    if siblings.len() > 1 {
        siblings.sort_unstable_by(|one, other| compare_siblings(other, one));
    }
    for sibling in siblings.iter() {
        put_behind(steps, node, sibling.node);
    }
    Ok(())
}

/// Adds the children of a node to a list. The numbers on a list of children fall.
fn find_children<'a>(
    context: &'a Context,
    node: NodeNumber,
    steps: &[Step],
    siblings: &mut Vec<Sibling<'a>>,
) -> Result<(), OutOfMemory> {
    let mut child = child_of(steps, node);
    while child.0 > 0 {
        if let Some(sibling) = sibling_of(context, child) {
            siblings.push(sibling)?;
        }
        let next = next_of(steps, child);
        child = if next.0 < child.0 {
            next
        } else {
            NodeNumber::ROOT
        };
    }
    Ok(())
}

fn sibling_of(context: &Context, node: NodeNumber) -> Option<Sibling<'_>> {
    if node.0 as usize >= context.node_count() {
        return None;
    }
    let link = context.link(node)?;
    Some(Sibling {
        node,
        attribute: link.attribute,
        attr: context.attribute_at(link.attribute),
        value: context.value_at(link.value),
    })
}

/// How the entries of two siblings are ordered, which are never the same.
fn compare_siblings(one: &Sibling, other: &Sibling) -> Ordering {
    if one.attribute == other.attribute {
        one.value.cmp(other.value)
    } else {
        one.attr.cmp(other.attr)
    }
}

fn child_of(steps: &[Step], node: NodeNumber) -> NodeNumber {
    match steps.get(node.0 as usize) {
        Some(step) => step.child,
        None => NodeNumber::ROOT,
    }
}

fn next_of(steps: &[Step], node: NodeNumber) -> NodeNumber {
    match steps.get(node.0 as usize) {
        Some(step) => step.next,
        None => NodeNumber::ROOT,
    }
}

/// Puts a node behind another one.
fn put_behind(steps: &mut [Step], node: NodeNumber, other: NodeNumber) {
    let next = next_of(steps, node);
    put_next(steps, other, next);
    put_next(steps, node, other);
}

fn put_next(steps: &mut [Step], node: NodeNumber, next: NodeNumber) {
    if let Some(step) = steps.get_mut(node.0 as usize) {
        step.next = next;
    }
}

/// The numbers of rows in their likely order, if each has at most one node, and else none.
pub(crate) fn likely_numbers(
    alloc: Global,
    steps: &[Step],
    rows: &GroupedRows,
) -> Result<Vec<u32>, OutOfMemory> {
    let numbers = numbers_by_nodes(alloc, steps.len(), rows)?;
    let mut likely = Vec::with_capacity(alloc, rows.count())?;
    let mut node = NodeNumber::ROOT;
    for _ in 0..steps.len() {
        if let Some(Some(number)) = numbers.get(node.0 as usize) {
            likely.push(*number)?;
        }
        node = next_of(steps, node);
    }
    Ok(likely)
}

/// For each node the number of a row that has it alone.
fn numbers_by_nodes(
    alloc: Global,
    nodes: usize,
    rows: &GroupedRows,
) -> Result<Vec<Option<u32>>, OutOfMemory> {
    let mut numbers = Vec::new(alloc);
    numbers.resize(nodes, None)?;
    for number in 0..rows.count() {
        let node = match rows.nodes(number) {
            [] => NodeNumber::ROOT,
            [node] => *node,
            _ => return Ok(numbers),
        };
        if let Some(old) = numbers.get_mut(node.0 as usize) {
            *old = u32::try_from(number).ok();
        }
    }
    Ok(numbers)
}

/// The place of each node on the list.
pub(crate) fn likely_places(alloc: Global, steps: &[Step]) -> Result<Vec<u32>, OutOfMemory> {
    let mut places = Vec::new(alloc);
    places.resize(steps.len(), 0u32)?;
    let mut node = NodeNumber::ROOT;
    for place in 0..steps.len() {
        if let Some(old) = places.get_mut(node.0 as usize) {
            *old = u32::try_from(place).unwrap_or(0);
        }
        node = next_of(steps, node);
    }
    Ok(places)
}
