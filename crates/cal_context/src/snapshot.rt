ghost use Rattle.std.specs.Prelude.{◌≡◌, []};

use crate::{AttributeNumber, NodeNumber};
use cal_value::Variant;
use std::alloc::Global;

/// An attribute's number with a value of its own, which stands at no node.
#[derive(Debug, Drop)]
pub struct Immediate {
    pub attribute: AttributeNumber,
    pub value: Variant,
}

/// A record by numbers: its nodes, none of them the root, and its immediates. Cleared and filled
/// again, one snapshot serves for any number of records.
#[derive(Debug, Drop)]
pub struct Snapshot {
    pub nodes: Vec<NodeNumber>,
    pub imms: Vec<Immediate>,
}

impl Snapshot {
    /// No node and no immediate. It takes no memory.
    pub fn new(alloc: Global) -> Self
        ensures nodes { result.nodes.items ≡ [] }
        ensures imms { result.imms.items ≡ [] }
    {
        Snapshot {
            nodes: Vec::new(alloc),
            imms: Vec::new(alloc),
        }
    }

    /// Takes all nodes and immediates away, and keeps the memory.
    pub fn clear(&mut self)
        ensures nodes { self.new.nodes.items ≡ [] }
        ensures imms { self.new.imms.items ≡ [] }
    {
        self.nodes.clear();
        self.imms.clear();
    }
}
