ghost use Rattle.std.specs.Prelude.{◌≡◌, ◌<◌, ◌^◌, ℕ, [], false, length, slice_index_or, OnOk};
ghost use Rattle.cal_context.specs.Lists.{Adds, AreApart};

use cal_context::NodeNumber;
use cal_value::OutOfMemory;
use std::alloc::Global;
use std::marker::Model;

/// Nodes of a context, each once, in the order in which they came. A node is looked up by its
/// number, for which nothing is hashed.
#[derive(Drop)]
pub(crate) struct NodeSet {
    nodes: Vec<NodeNumber>,
    /// By the numbers of nodes, whether they are there.
    there: Vec<bool>,
}

impl Model for NodeSet {
    ghost use Rattle.std.specs.Prelude.{List};
    ghost use Rattle.cal_context.specs.declared.numbers.NodeNumber.{NodeNumber};
    ghost use Rattle.cal_run.specs.Holding.{AreMarked};

    ghost Value = { List NodeNumber };

    ghost view = { λ s. s.nodes.items };

    ghost invariant = { λ s. AreMarked s.there.items s.nodes.items };
}

impl NodeSet {
    /// No node. It takes no memory.
    pub(crate) fn new(alloc: Global) -> NodeSet
        ensures { result ≡ [] }
    {
        NodeSet {
            nodes: Vec::new(alloc),
            there: Vec::new(alloc),
        }
    }

    /// The nodes, of which none stands twice.
    pub(crate) fn as_slice(&self) -> &[NodeNumber]
        ensures items { result.now ≡ self.now }
        ensures apart { AreApart self.now }
    {
        self.nodes.as_slice()
    }

    /// Adds a node, if it isn't there.
    pub(crate) fn add(&mut self, node: NodeNumber) -> Result<(), OutOfMemory>
        ensures { OnOk result (Adds self.old node self.new) }
    {
        let place = node.0 as usize;
        make_room(&mut self.there, place)?;
        if !self.there[place] {
            self.nodes.push(node)?;
            self.there[place] = true;
        }
        Ok(())
    }
}

/// Makes room for a node of this number in a list that says which nodes are there, of which none
/// is more.
#[inline(always)]
fn make_room(there: &mut Vec<bool>, place: usize) -> Result<(), OutOfMemory>
    requires { place < 2 ^ 32 }
    ensures room { OnOk result (place < length there.new.items) }
    ensures same { (k : ℕ)
        → slice_index_or there.new.items k false ≡ slice_index_or there.old.items k false }
{
    if place < there.len() {
        return Ok(());
    }
    there.resize(place * 2 + 1, false)?;
    Ok(())
}
