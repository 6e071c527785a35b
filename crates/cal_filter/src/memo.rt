//! A node for each node of a context.
ghost use Rattle.std.specs.Prelude.{◌≡◌, ℕ, ◌+◌, ◌≤◌, [], ◌∷◌, ◌++◌, length, slice_index_or};
ghost use Rattle.std.specs.Prelude.{IsTrue, OnOk, OnErr};
ghost use Rattle.cal_filter.specs.Memo.{with_roots};

use cal_context::NodeNumber;
use cal_value::OutOfMemory;
use std::alloc::Global;
use std::marker::Model;

/// A node for each node of a context, by their numbers. Roots at the end take no memory, so that
/// what no node has costs none.
#[derive(Drop)]
pub struct NodeMemo {
    nodes: Vec<NodeNumber>,
    // of how many nodes something is kept; for those that aren't in the list it is the root
    count: usize,
}

impl Model for NodeMemo {
    ghost use Rattle.std.specs.Prelude.{◌≤◌, List, length};
    ghost use Rattle.cal_context.specs.declared.numbers.NodeNumber.{NodeNumber};
    ghost use Rattle.cal_filter.specs.Memo.{with_roots};

    ghost Value = { List NodeNumber };

    ghost view = { λ s. with_roots s.nodes.items s.count };

    ghost invariant = { λ s. length s.nodes.items ≤ s.count };
}

impl NodeMemo {
    /// Of no node. It takes no memory.
    pub fn new(alloc: Global) -> NodeMemo
        ensures { result ≡ [] }
    {
        NodeMemo {
            nodes: Vec::new(alloc),
            count: 0,
        }
    }

    /// Of how many nodes something is kept.
    pub fn len(&self) -> usize
        ensures { result ≡ length self.now }
    {
        let _ = &self.nodes;
        self.count
    }

    /// Whether it is the root for each node.
    pub fn is_none(&self) -> bool
        ensures { IsTrue result → (n : ℕ)
            → slice_index_or self.now n (record { 0 = 0 }) ≡ record { 0 = 0 } }
    {
        let _ = self.count;
        self.nodes.is_empty()
    }

    /// What is kept of a node, or else the root.
    pub fn get(&self, node: NodeNumber) -> NodeNumber
        ensures { result ≡ slice_index_or self.now node.0 (record { 0 = 0 }) }
    {
        let _ = self.count;
        node_at(&self.nodes, node)
    }

    /// Keeps the root of each node more, up to so many nodes.
    #[inline(always)]
    pub fn put_roots(&mut self, count: usize)
        ensures { self.new ≡ with_roots self.old count }
    {
        let _ = &self.nodes;
        if count <= self.count {
            return;
        }
        self.count = count;
    }

    /// Keeps something of one node more.
    pub fn push(&mut self, node: NodeNumber) -> Result<(), OutOfMemory>
        ensures { OnOk result (self.new ≡ self.old ++ node ∷ []) }
    {
        let Some(count) = self.count.checked_add(1) else {
            return Err(OutOfMemory);
        };
        add_behind_roots(&mut self.nodes, self.count, node)?;
        self.count = count;
        Ok(())
    }
}

/// The node at the place of another one, or else the root.
fn node_at(nodes: &[NodeNumber], node: NodeNumber) -> NodeNumber
    ensures { result ≡ slice_index_or nodes.now node.0 (record { 0 = 0 }) }
{
    nodes
        .get(node.0 as usize)
        .copied()
        .unwrap_or(NodeNumber::ROOT)
}

/// Adds a node behind so many. The root needn't be added.
fn add_behind_roots(
    nodes: &mut Vec<NodeNumber>,
    count: usize,
    node: NodeNumber,
) -> Result<(), OutOfMemory>
    requires { length nodes.old.items ≤ count }
    ensures added { OnOk result (with_roots nodes.new.items (count + 1)
        ≡ with_roots nodes.old.items count ++ node ∷ []) }
    ensures short { OnOk result (length nodes.new.items ≤ count + 1) }
    ensures err { OnErr result (length nodes.new.items ≤ count) }
{
    if node == NodeNumber::ROOT {
        return Ok(());
    }
    pad(nodes, count)?;
    nodes.push(node)?;
    Ok(())
}

/// Adds roots up to so many nodes.
fn pad(nodes: &mut Vec<NodeNumber>, count: usize) -> Result<(), OutOfMemory>
    requires { length nodes.old.items ≤ count }
    ensures ok { OnOk result (nodes.new.items ≡ with_roots nodes.old.items count) }
    ensures err { OnErr result (nodes.new.items ≡ nodes.old.items) }
{
    nodes.resize(count, NodeNumber::ROOT)?;
    Ok(())
}
