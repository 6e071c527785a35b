ghost use Rattle.std.specs.Prelude.{◌≡◌, ◌⊎◌, ◌+◌, ◌<◌, ◌++◌, ℕ, [], ◌∷◌, List, length};
ghost use Rattle.cal_once.specs.Seats.{view};
ghost use Rattle.cal_once.specs.Views.{Begins, IsParent, Learns};
ghost use Rattle.cal_tree.specs.Paths.{NodeEntry};
ghost use Rattle.cal_tree.specs.Seats.{IsKnownNode, IsPathOf, IsTreeSeat, slots_of};

use crate::{Tree, TreeSeat};
use cal_words::NodeId;

/// How a node hangs in the tree: its parent, its depth (1 below the root) and its attribute's
/// number.
#[derive(Clone, Copy, Debug, PartialEq, Eq)]
pub struct Up {
    pub parent: NodeId,
    pub depth: u32,
    pub attr: u32,
}

impl Tree {
    /// How a node below the root hangs, by its first three words. The seat then knows its parent.
    pub fn up(&self, seat: &mut TreeSeat, node: NodeId) -> Up
        requires seat { IsTreeSeat self.now seat.old }
        requires known { IsKnownNode self.now seat.old node.0 }
        requires below { 0 < node.0 }
        ensures seat { IsTreeSeat self.now seat.new }
        ensures learns { Learns (view seat.old) (view seat.new) }
        ensures words { (place : ℕ) → node.0 ≡ place + 1 → Begins (view seat.new) place
            (result.parent.0 ∷ result.depth ∷ result.attr ∷ []) }
        ensures parent { IsKnownNode self.now seat.new result.parent.0 }
        ensures path { (path : List NodeEntry) (e : NodeEntry) →
            IsPathOf self.now seat.new (path ++ e ∷ []) node.0 → IsPathOf self.now seat.new path
            result.parent.0 × (result.attr ≡ e.attr) × (result.depth ≡ length path + 1) }
    {
        let mut words = [0; 3];
        self.rows.front(seat, u64::from(node.0) - 1, &mut words);
        let [parent, depth, attr] = words;
        self.reach(seat, parent);
        Up {
            parent: NodeId(parent as u32),
            depth: depth as u32,
            attr: attr as u32,
        }
    }

    // Meets a node that is the parent of one that the seat knows.
    pub(crate) fn reach(&self, seat: &mut TreeSeat, parent: u64)
        requires seat { IsTreeSeat self.now seat.old }
        requires parent { (parent ≡ 0) ⊎ ((place : ℕ) × (parent ≡ place + 1)
            × (place < slots_of self.now) × IsParent (view seat.old) (slots_of self.now) place) }
        ensures seat { IsTreeSeat self.now seat.new }
        ensures learns { Learns (view seat.old) (view seat.new) }
        ensures known { IsKnownNode self.now seat.new parent }
    {
        if parent == 0 {
            return;
        }
        let _known = self.rows.look(seat, parent - 1);
    }
}
