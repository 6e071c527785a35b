//! The order of paths by the numbers of their nodes.
ghost use Rattle.std.specs.Prelude.{◌≡◌, ◌<◌, length, map};
ghost use Rattle.std.specs.Cmp.Lexicographic.{slice_cmp};
ghost use Rattle.cal_context.specs.Children.{CanLink, IsLinked};
ghost use Rattle.cal_context.specs.Tree.{attribute_at, path_at};
ghost use Rattle.cal_records.specs.Forks.{IsFork, entry_by};
ghost use Rattle.cal_value.specs.Order.{attribute_cmp, entry_cmp, path_cmp};

use cal_context::{AttributeNumber, Context, Link, NodeNumber};
use std::cmp::Ordering;

/// A node below the root, and how it hangs in the tree.
#[derive(Clone, Copy)]
pub(crate) struct Child {
    node: NodeNumber,
    link: Link,
}

/// By which children two paths go on from the last node that they share, if they go on.
#[derive(Clone, Copy)]
pub(crate) struct Fork {
    one: Option<Child>,
    other: Option<Child>,
}

/// How the paths of two lists of nodes are ordered, path by path.
pub(crate) fn compare_paths(context: &Context, one: &[NodeNumber], other: &[NodeNumber]) -> Ordering
    ensures { result ≡ slice_cmp path_cmp
        (map (path_at context.now) one.now) (map (path_at context.now) other.now) }
{
    for place in 0..one.len() {
        if other.len() <= place {
            return Ordering::Greater;
        }
        let order = compare_nodes(context, one[place], other[place]);
        if order != Ordering::Equal {
            return order;
        }
    }
    if one.len() < other.len() {
        Ordering::Less
    } else {
        Ordering::Equal
    }
}

/// How the paths of two nodes are ordered: no entry is read but those at which they part.
fn compare_nodes(context: &Context, one: NodeNumber, other: NodeNumber) -> Ordering
    ensures { result ≡ path_cmp (path_at context.now one) (path_at context.now other) }
{
    context.has_each_once();
    let fork = fork_of(context, within(context, one), within(context, other));
    match (fork.one, fork.other) {
        (None, None) => Ordering::Equal,
        (None, Some(_)) => Ordering::Less,
        (Some(_), None) => Ordering::Greater,
        (Some(one), Some(other)) => compare_links(context, one.link, other.link),
    }
}

/// The node, or the root where the context has no such node.
fn within(context: &Context, node: NodeNumber) -> NodeNumber
    ensures within { result.0 < length context.now.paths }
    ensures same { path_at context.now result ≡ path_at context.now node }
{
    context.has_each_once();
    if (node.0 as usize) < context.node_count() {
        node
    } else {
        NodeNumber::ROOT
    }
}

/// Where two paths part. A parent has a smaller number than its children, so the node of the
/// larger number isn't above the other one, and is left for its parent until both meet.
fn fork_of(context: &Context, one: NodeNumber, other: NodeNumber) -> Fork
    requires one { one.0 < length context.now.paths }
    requires other { other.0 < length context.now.paths }
    ensures { IsFork context.now one other result }
{
    let mut one = one;
    let mut other = other;
    let mut fork = Fork {
        one: None,
        other: None,
    };
    while one.0 != other.0 {
        if other.0 < one.0 {
            let child = child_at(context, one);
            fork.one = Some(child);
            one = child.link.parent;
        } else {
            let child = child_at(context, other);
            fork.other = Some(child);
            other = child.link.parent;
        }
    }
    fork
}

fn child_at(context: &Context, node: NodeNumber) -> Child
    requires below { 0 < node.0 }
    requires within { node.0 < length context.now.paths }
    ensures node { result.node ≡ node }
    ensures linked { IsLinked context.now result.link node }
{
    match context.link(node) {
        Some(link) => Child { node, link },
        None => unreachable!(),
    }
}

/// How the entries of two links are ordered.
fn compare_links(context: &Context, one: Link, other: Link) -> Ordering
    requires one { CanLink context.now one }
    requires other { CanLink context.now other }
    ensures { result ≡ entry_cmp (entry_by context.now one) (entry_by context.now other) }
{
    match compare_attributes(context, one.attribute, other.attribute) {
        Ordering::Equal => context
            .value_at(one.value)
            .cmp(context.value_at(other.value)),
        order => order,
    }
}

fn compare_attributes(context: &Context, one: AttributeNumber, other: AttributeNumber) -> Ordering
    requires one { one.0 < length context.now.attributes }
    requires other { other.0 < length context.now.attributes }
    ensures { result
        ≡ attribute_cmp (attribute_at context.now one) (attribute_at context.now other) }
{
    if one.0 == other.0 {
        return Ordering::Equal;
    }
    context.attribute_at(one).cmp(context.attribute_at(other))
}
