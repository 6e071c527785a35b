ghost use Rattle.std.specs.Prelude.{◌≡◌, ◌<◌, ◌++◌, ◌∷◌, List, ℕ, [], filter, length, map, IfOk};
ghost use Rattle.std.specs.Prelude.{None, IfNone, IfSome, OnOk, Some, slice_index_or};
ghost use Rattle.std.specs.List.{All};
ghost use Rattle.cal_value.specs.Flat.{joined};
ghost use Rattle.cal_value.specs.declared.attribute.Entry.{Entry};
ghost use Rattle.cal_context.specs.Snapshots.{IsBelowRoot};
ghost use Rattle.cal_context.specs.Tree.{Tree, path_at};
ghost use Rattle.cal_rowset.specs.Hierarchy.{is_of_hierarchy};
ghost use Rattle.cal_treefmt.specs.Walks.{Walks};
ghost use Rattle.cal_treefmt.specs.Ways.{AreWays, IsAbove, IsUp, LeadsTo, known_at};
ghost use Rattle.cal_treefmt.specs.Ways.{with_known};

use crate::nodes::add_entry;
use cal_context::{Context, NodeNumber};
use cal_value::OutOfMemory;
use std::alloc::Global;

/// The ways from the root that were gone so far along the hierarchies of a context's nodes, into
/// another context that has the nodes of a tree.
#[derive(Drop)]
pub(crate) struct Ways {
    // of each node of the context the tree's node to which its hierarchy leads, once it was gone
    known: Vec<Option<NodeNumber>>,
    // the context's nodes that are left on one way, the next one last
    left: Vec<NodeNumber>,
}

impl Ways {
    /// No way was gone.
    pub(crate) fn new(alloc: Global, context: &Context) -> Result<Self, OutOfMemory>
        ensures { IfOk result (λ ways. (nodes : Tree) → AreWays context.now nodes ways) }
    {
        Ok(Ways {
            known: nothing_known(alloc, context.node_count())?,
            left: Vec::new(alloc),
        })
    }

    /// The node to which the hierarchy of a row leads, by its nodes.
    pub(crate) fn add_row(
        &mut self,
        context: &Context,
        row: &[NodeNumber],
        nodes: &mut Context,
    ) -> Result<NodeNumber, OutOfMemory>
        requires within { All (IsBelowRoot context.now) row.now }
        requires ways { AreWays context.now nodes.old self.old }
        ensures ways { OnOk result (AreWays context.now nodes.new self.new) }
        ensures walks { IfOk result (λ n. Walks nodes.old nodes.new (record { 0 = 0 })
            (filter (λ e. is_of_hierarchy e.attr)
            (joined (map (path_at context.now) row.now))) n) }
    {
        nodes.has_each_once();
        let mut at = NodeNumber::ROOT;
        for place in 0..row.len() {
            let node = node_at(row, place);
            at = self.go(context, node, nodes, at)?;
        }
        Ok(at)
    }

    /// Goes on along the hierarchy of a node.
    fn go(
        &mut self,
        context: &Context,
        node: &NodeNumber,
        nodes: &mut Context,
        from: NodeNumber,
    ) -> Result<NodeNumber, OutOfMemory>
        requires node { node.now.0 < length context.now.paths }
        requires from { from.0 < length nodes.old.paths }
        requires ways { AreWays context.now nodes.old self.old }
        ensures ways { OnOk result (AreWays context.now nodes.new self.new) }
        ensures walks { IfOk result (λ n. Walks nodes.old nodes.new from
            (filter (λ e. is_of_hierarchy e.attr) (path_at context.now node.now)) n) }
    {
        let up = self.climb(context, *node, from)?;
        self.descend(context, up, *node, nodes, from)
    }

    /// Climbs from a node to one to which the way is known, or to the root, and keeps the nodes
    /// that are left on the way back.
    fn climb(
        &mut self,
        context: &Context,
        node: NodeNumber,
        from: NodeNumber,
    ) -> Result<NodeNumber, OutOfMemory>
        requires { node.0 < length context.now.paths }
        ensures known { self.new.known.items ≡ self.old.known.items }
        ensures left { IfOk result (λ up. LeadsTo context.now up self.new.left.items node) }
        ensures within { IfOk result (λ up. up.0 < length context.now.paths) }
        ensures up { IfOk result (λ up. IsUp context.now self.old.known.items from up) }
    {
        self.left.clear();
        let mut up = node;
        while let Some(above) = self.above(context, up, from) {
            self.left.push(up)?;
            up = above;
        }
        Ok(up)
    }

    /// The parent of a node to which the way isn't known.
    fn above(&self, context: &Context, node: NodeNumber, from: NodeNumber) -> Option<NodeNumber>
        requires { node.0 < length context.now.paths }
        ensures above { IfSome result (λ above. IsAbove context.now above node) }
        ensures up { IfNone result (IsUp context.now self.now.known.items from node) }
    {
        if self.known(node, from).is_some() {
            return None;
        }
        Some(context.link(node)?.parent)
    }

    /// The tree's node to which the hierarchy of a node leads from the root, if that is known.
    fn known(&self, node: NodeNumber, from: NodeNumber) -> Option<NodeNumber>
        ensures { result ≡ known_at self.now.known.items from node }
    {
        if from != NodeNumber::ROOT {
            return None;
        }
        *self.known.as_slice().get(node.0 as usize)?
    }

    /// Goes along what is left of the hierarchy of a node.
    fn descend(
        &mut self,
        context: &Context,
        up: NodeNumber,
        node: NodeNumber,
        nodes: &mut Context,
        from: NodeNumber,
    ) -> Result<NodeNumber, OutOfMemory>
        requires left { LeadsTo context.now up self.old.left.items node }
        requires within { up.0 < length context.now.paths }
        requires up { IsUp context.now self.old.known.items from up }
        requires from { from.0 < length nodes.old.paths }
        requires ways { AreWays context.now nodes.old self.old }
        ensures ways { OnOk result (AreWays context.now nodes.new self.new) }
        ensures walks { IfOk result (λ n. Walks nodes.old nodes.new from
            (filter (λ e. is_of_hierarchy e.attr) (path_at context.now node)) n) }
    {
        nodes.has_each_once();
        let mut at = self.known(up, from).unwrap_or(from);
        while let Some(next) = self.left.pop() {
            at = add_own(context, next, nodes, at)?;
            self.learn(next, from, at);
        }
        Ok(at)
    }

    /// Notes the way to a node, if it was gone from the root.
    fn learn(&mut self, node: NodeNumber, from: NodeNumber, at: NodeNumber)
        requires { node.0 < length self.old.known.items }
        ensures left { self.new.left.items ≡ self.old.left.items }
        ensures known { self.new.known.items
            ≡ with_known self.old.known.items from node at }
    {
        if from == NodeNumber::ROOT {
            self.known[node.0 as usize] = Some(at);
        }
    }
}

fn node_at(nodes: &[NodeNumber], place: usize) -> &NodeNumber
    requires { place < length nodes.now }
    ensures { result.now ≡ slice_index_or nodes.now place result.now }
{
    &nodes[place]
}

fn nothing_known(alloc: Global, count: usize) -> Result<Vec<Option<NodeNumber>>, OutOfMemory>
    ensures counted { IfOk result (λ known. length known.items ≡ count) }
    ensures none { IfOk result (λ known. (k : ℕ) → slice_index_or known.items k None ≡ None) }
{
    let mut known = Vec::with_capacity(alloc, count)?;
    for _node in 0..count {
        known.push(None)?;
    }
    Ok(known)
}

/// The tree's node to which the last entry of a node leads.
fn add_own(
    context: &Context,
    node: NodeNumber,
    nodes: &mut Context,
    at: NodeNumber,
) -> Result<NodeNumber, OutOfMemory>
    requires node { node.0 < length context.now.paths }
    requires at { at.0 < length nodes.old.paths }
    ensures { IfOk result (λ n. (path : List Entry) (e : Entry)
        → path_at context.now node ≡ path ++ e ∷ [] → Walks nodes.old nodes.new at
        (filter (λ e. is_of_hierarchy e.attr) (e ∷ [])) n) }
{
    let Some(link) = context.link(node) else {
        return Ok(at);
    };
    let attribute = context.attribute_at(link.attribute);
    let value = context.value_at(link.value);
    add_entry(nodes, at, attribute, value)
}
