ghost use Rattle.std.specs.Prelude.{◌≡◌, ◌==◌, ◌+◌, ◌≤◌, ℕ, Some, None, OnOk, if◌then◌else◌};
ghost use Rattle.std.specs.Prelude.{length, slice_index_or, IfSome};
ghost use Rattle.cal_read.specs.Held.{held_at};
ghost use Rattle.cal_read.specs.UsualColumns.{HasNode, HasNumber};

use crate::in_turn::InTurn;
use cal_context::{AttributeNumber, NodeNumber};
use cal_seeds::Seeds;
use cal_value::{Kind, OutOfMemory};
use indexmap::IndexMap;
use std::alloc::Global;

/// Where a path ends: at a node, or at the root, and what an attribute has below it.
#[derive(Clone, Copy, Debug)]
pub(crate) struct Place {
    pub(crate) node: NodeNumber,
    pub(crate) depth: u32,
    pub(crate) kind: Option<Kind>,
    pub(crate) props: u32,
}

/// What is known of a node beside its id: its place, the ids of its attribute and its parent, and
/// the attribute that it is.
#[derive(Clone, Copy, Debug)]
pub(crate) struct Held {
    pub(crate) place: Place,
    pub(crate) attribute: u64,
    pub(crate) parent: Option<u64>,
    pub(crate) number: Option<AttributeNumber>,
}

/// The nodes by their ids.
#[derive(Drop)]
pub(crate) struct Nodes {
    in_turn: InTurn,
    // the others
    map: IndexMap<u64, Held, Seeds>,
}

impl Nodes {
    /// No node, where ids that don't come in turn are hashed by seeds. It takes no memory.
    pub(crate) fn new(alloc: Global, seeds: Seeds) -> Nodes
        ensures { (id : ℕ) → held_at result id ≡ None }
    {
        Nodes {
            in_turn: InTurn::new(alloc),
            map: IndexMap::with_hasher(alloc, seeds),
        }
    }

    /// What is known of the node of an id: without a look-up where the ids come in turn.
    pub(crate) fn get(&self, id: u64) -> Option<Held>
        ensures { result ≡ held_at self.now id }
    {
        match self.in_turn.get(id) {
            Some(held) => Some(held),
            None => self.map.get(&id).copied(),
        }
    }

    /// The node of the context that is known under an id. Nothing else is copied.
    #[inline(always)]
    pub(crate) fn node(&self, id: u64) -> Option<NodeNumber>
        ensures { IfSome result (HasNode self.now id) }
    {
        match self.in_turn.node(id) {
            Some(node) => Some(node),
            None => Some(self.get(id)?.place.node),
        }
    }

    /// The attribute that the node of an id is. Nothing else is copied.
    #[inline(always)]
    pub(crate) fn number(&self, id: u64) -> Option<AttributeNumber>
        ensures { IfSome result (HasNumber self.now id) }
    {
        match self.in_turn.number(id) {
            Some(number) => Some(number),
            None => self.get(id)?.number,
        }
    }

    /// Notes a node, and leaves the others.
    pub(crate) fn insert(&mut self, id: u64, held: Held) -> Result<(), OutOfMemory>
        ensures { OnOk result ((other : ℕ) → held_at self.new other
            ≡ (if id == other then Some held else held_at self.old other)) }
    {
        if !self.in_turn.put(id, &held)? {
            self.map.insert(id, held)?;
        }
        Ok(())
    }
}
