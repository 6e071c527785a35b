ghost use Rattle.std.specs.Prelude.{◌≡◌, [], ◌∷◌, ◌++◌, List, IfOk, IfSome, IsTrue, OnOk};
ghost use Rattle.cal_context.specs.Snapshots.{IsBelowRoot, IsIn};
ghost use Rattle.cal_context.specs.Tree.{Grows, path_at};
ghost use Rattle.cal_context.specs.declared.numbers.NodeNumber.{NodeNumber as ANode};
ghost use Rattle.cal_keys.specs.Leading.{IsStep, Leads};
ghost use Rattle.cal_filter.specs.Results.{IsNumbered};
ghost use Rattle.cal_value.specs.declared.attribute.Entry.{Entry as AnEntry};

use cal_context::{AttributeNumber, Context, NodeNumber, Snapshot, expand};
use cal_value::{Attribute, Entry, OutOfMemory, Seq, Variant, same};
use std::alloc::Global;

// so many attributes are compared before one is looked up
const FEW: usize = 4;

/// The node of an entry below a node. A parent that isn't there is answered as want of memory is.
pub(crate) fn step(
    context: &mut Context,
    parent: NodeNumber,
    attribute: &Attribute,
    value: &Variant,
) -> Result<NodeNumber, OutOfMemory>
    ensures step { IfOk result (IsStep context.old context.new parent
        (record { attr = attribute.now; value = value.now })) }
    ensures grows { OnOk result (Grows context.old context.new) }
{
    if parent.0 as usize >= context.node_count() {
        return Err(OutOfMemory);
    }
    let number = number_in(context, attribute)?;
    let node = context.child(parent, number, value)?;
    Ok(node)
}

/// The same, where the node may be one that is known: that is looked at first, without a look-up.
pub(crate) fn step_near(
    context: &mut Context,
    parent: NodeNumber,
    attribute: &Attribute,
    value: &Variant,
    near: NodeNumber,
) -> Result<NodeNumber, OutOfMemory>
    ensures step { IfOk result (IsStep context.old context.new parent
        (record { attr = attribute.now; value = value.now })) }
    ensures grows { OnOk result (Grows context.old context.new) }
{
    if is_step(context, parent, attribute, value, near) {
        return Ok(near);
    }
    step(context, parent, attribute, value)
}

/// Whether a node is that of an entry below a node.
fn is_step(
    context: &Context,
    parent: NodeNumber,
    attribute: &Attribute,
    value: &Variant,
    node: NodeNumber,
) -> bool
    ensures { IsTrue result → IsStep context.now context.now parent
        (record { attr = attribute.now; value = value.now }) node }
{
    if node.0 as usize >= context.node_count() {
        return false;
    }
    match context.link(node) {
        Some(link) => {
            link.parent.0 == parent.0
                && same(context.value_at(link.value), value)
                && same(context.attribute_at(link.attribute), attribute)
        }
        None => false,
    }
}

/// The number of an attribute, which is added where it is new.
fn number_in(context: &mut Context, attribute: &Attribute) -> Result<AttributeNumber, OutOfMemory>
    ensures numbered { IfOk result (IsNumbered context.new attribute.now) }
    ensures grows { OnOk result (Grows context.old context.new) }
{
    if let Some(number) = among_first(context, attribute) {
        return Ok(number);
    }
    context.attribute(attribute)
}

/// The number of an attribute, where it is one of the first few: these are compared, which takes
/// less time than a look-up.
fn among_first(context: &Context, attribute: &Attribute) -> Option<AttributeNumber>
    ensures { IfSome result (IsNumbered context.now attribute.now) }
{
    for place in 0..context.attribute_count().min(FEW) {
        let number = AttributeNumber(place as u32);
        if *context.attribute_at(number) == *attribute {
            return Some(number);
        }
    }
    None
}

/// The node that a path below a node leads to.
pub(crate) fn reach_from(
    context: &mut Context,
    from: NodeNumber,
    path: &[Entry],
) -> Result<NodeNumber, OutOfMemory>
    ensures leads { IfOk result (λ n. (before : List AnEntry) → Leads context.old before from
        → Leads context.new (before ++ path.now) n) }
    ensures grows { OnOk result (Grows context.old context.new) }
{
    let mut node = from;
    for entry in path {
        node = step(context, node, &entry.attr, &entry.value)?;
    }
    Ok(node)
}

/// The node of one node's path with another's behind it. It takes time in the other's length.
pub(crate) fn joined(
    alloc: Global,
    context: &mut Context,
    node: NodeNumber,
    other: NodeNumber,
) -> Result<NodeNumber, OutOfMemory>
    ensures leads { IfOk result (λ n. (one two : List AnEntry) → Leads context.old one node
        → Leads context.old two other → Leads context.new (one ++ two) n) }
    ensures grows { OnOk result (Grows context.old context.new) }
{
    context.has_each_once();
    if node == NodeNumber::ROOT {
        return Ok(other);
    }
    let path = path_of(alloc, context, other)?;
    let both = reach_from(context, node, path.as_slice())?;
    Ok(both)
}

/// The path of a node. A node that isn't there is answered as want of memory is.
pub(crate) fn path_of(
    alloc: Global,
    context: &Context,
    node: NodeNumber,
) -> Result<Seq<Entry>, OutOfMemory>
    ensures { IfOk result (λ path. path ≡ path_at context.now node) }
{
    context.has_each_once();
    if node == NodeNumber::ROOT {
        return Ok(Seq::new(alloc));
    }
    if node.0 as usize >= context.node_count() {
        return Err(OutOfMemory);
    }
    path_below(alloc, context, node)
}

fn path_below(alloc: Global, context: &Context, node: NodeNumber) -> Result<Seq<Entry>, OutOfMemory>
    requires { IsBelowRoot context.now node }
    ensures { IfOk result (λ path. path ≡ path_at context.now node) }
{
    let mut snapshot = Snapshot::new(alloc);
    snapshot.nodes.push(node)?;
    only_path(alloc, context, &snapshot)
}

/// The path of a snapshot's node, where it has one.
fn only_path(
    alloc: Global,
    context: &Context,
    snapshot: &Snapshot,
) -> Result<Seq<Entry>, OutOfMemory>
    requires { IsIn context.now snapshot.now }
    ensures { IfOk result (λ path. (n : ANode) → snapshot.now.nodes.items ≡ n ∷ []
        → path ≡ path_at context.now n) }
{
    let mut paths = expand(alloc, context, snapshot)?.paths;
    match paths.pop() {
        Some(path) => Ok(path),
        None => Ok(Seq::new(alloc)),
    }
}
