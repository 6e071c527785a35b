ghost use Rattle.std.specs.Prelude.{◌≡◌, ◌<◌, [], ◌∷◌, ◌++◌, Some, length, slice_get, take};
ghost use Rattle.std.specs.Prelude.{IfOk, IfSome, IsNone, OnErr, OnOk};
ghost use Rattle.std.specs.List.{Contains};
ghost use Rattle.cal_context.specs.Lists.{AreApart, Interns, IsFront};

use cal_context::NodeNumber;
use cal_value::OutOfMemory;
use std::alloc::Global;
use std::marker::Model;

/// Nodes of a context, each once, with numbers from 0 in the order in which they came. Nothing is
/// hashed: beside a node's number in the context lies where it would stand.
#[derive(Drop)]
pub(crate) struct NodeInterner {
    nodes: Vec<NodeNumber>,
    // that of a node that isn't there is any number
    places: Vec<u32>,
}

impl Model for NodeInterner {
    ghost use Rattle.std.specs.Prelude.{List};
    ghost use Rattle.cal_context.specs.declared.numbers.NodeNumber.{NodeNumber as ANode};
    ghost use Rattle.cal_keys.specs.NodePlaces.{ArePlaces};

    ghost Value = { List ANode };

    ghost view = { λ s. s.nodes.items };

    ghost invariant = { λ s. ArePlaces s.nodes.items s.places.items };
}

impl NodeInterner {
    /// No node. It takes no memory.
    pub(crate) fn new(alloc: Global) -> NodeInterner
        ensures { result ≡ [] }
    {
        NodeInterner {
            nodes: Vec::new(alloc),
            places: Vec::new(alloc),
        }
    }

    /// The nodes by their numbers.
    pub(crate) fn as_slice(&self) -> &[NodeNumber]
        ensures nodes { result.now ≡ self.now }
        ensures apart { AreApart self.now }
    {
        let _ = &self.places;
        &self.nodes
    }

    /// The number of a node, which is added where it is new.
    pub(crate) fn intern(&mut self, node: NodeNumber) -> Result<usize, OutOfMemory>
        ensures interned { IfOk result (Interns self.old node self.new) }
        ensures err { OnErr result (self.new ≡ self.old) }
    {
        if let Some(number) = self.find(node) {
            return Ok(number);
        }
        self.add(node)
    }

    /// Drops the nodes from this number on.
    pub(crate) fn truncate(&mut self, count: usize)
        ensures { self.new ≡ take count self.old }
    {
        self.nodes.truncate(count);
    }

    fn find(&self, node: NodeNumber) -> Option<usize>
        ensures found { IfSome result (λ number. slice_get self.now number ≡ Some node) }
        ensures absent { IsNone result → ¬ Contains self.now node }
    {
        let place = *self.places.get(node.0 as usize)? as usize;
        let there = *self.nodes.get(place)?;
        if there.0 != node.0 {
            return None;
        }
        Some(place)
    }

    /// Adds a node that isn't there.
    fn add(&mut self, node: NodeNumber) -> Result<usize, OutOfMemory>
        requires { ¬ Contains self.old node }
        ensures added { IfOk result (λ number. number ≡ length self.old) }
        ensures ok { OnOk result (self.new ≡ self.old ++ node ∷ []) }
        ensures err { OnErr result (self.new ≡ self.old) }
    {
        let number = self.nodes.len();
        let Ok(place) = u32::try_from(number) else {
            return Err(OutOfMemory);
        };
        make_room(&mut self.places, node)?;
        self.nodes.push(node)?;
        self.places[node.0 as usize] = place;
        Ok(number)
    }
}

/// Lets a number lie beside a node.
fn make_room(places: &mut Vec<u32>, node: NodeNumber) -> Result<(), OutOfMemory>
    ensures long { OnOk result (node.0 < length places.new.items) }
    ensures front { IsFront places.old.items places.new.items }
{
    let place = node.0 as usize;
    if place >= places.len() {
        places.resize(place + 1, 0)?;
    }
    Ok(())
}
