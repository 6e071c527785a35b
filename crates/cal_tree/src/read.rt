ghost use Rattle.std.specs.Prelude.{◌≡◌, ◌+◌, ◌<◌, ◌++◌, [], ◌∷◌, List, length, IfOk};
ghost use Rattle.cal_once.specs.Seats.{view};
ghost use Rattle.cal_once.specs.Views.{Learns};
ghost use Rattle.cal_tree.specs.Paths.{IsChild, NodeEntry};
ghost use Rattle.cal_tree.specs.Seats.{IsKnownNode, IsPathOf, IsTreeSeat, slots_of};

use crate::{Tree, TreeSeat};
use cal_value::OutOfMemory;
use cal_words::{Node, NodeId, read_node};
use std::alloc::Global;

impl Tree {
    /// A known node below the root: its parent, its depth, its attribute's number and its value.
    /// The seat then knows the parent. The node's words are read into `words`, whose memory serves
    /// again, by one load each and two more; a text takes memory of its own.
    pub fn read(
        &self,
        alloc: Global,
        seat: &mut TreeSeat,
        node: NodeId,
        words: &mut Vec<u64>,
    ) -> Result<Node, OutOfMemory>
        requires seat { IsTreeSeat self.now seat.old }
        requires known { IsKnownNode self.now seat.old node.0 }
        requires below { 0 < node.0 }
        ensures seat { IsTreeSeat self.now seat.new }
        ensures learns { Learns (view seat.old) (view seat.new) }
        ensures child { IfOk result (λ found. IsChild (slots_of self.now) (view seat.new)
            found.parent.0 found.depth (record { attr = found.attr; value = found.value }) node.0) }
        ensures parent { IfOk result (λ found. IsKnownNode self.now seat.new found.parent.0) }
        ensures path { (path : List NodeEntry) (e : NodeEntry)
            → IsPathOf self.now seat.new (path ++ e ∷ []) node.0
            → IfOk result (λ found. IsPathOf self.now seat.new path found.parent.0
            × (e ≡ record { attr = found.attr; value = found.value })
            × (found.depth ≡ length path + 1)) }
    {
        let found = self.node(alloc, seat, node, words)?;
        self.reach(seat, u64::from(found.parent.0));
        Ok(found)
    }

    // A known node below the root, read back from its words.
    pub(crate) fn node(
        &self,
        alloc: Global,
        seat: &mut TreeSeat,
        node: NodeId,
        words: &mut Vec<u64>,
    ) -> Result<Node, OutOfMemory>
        requires seat { IsTreeSeat self.now seat.old }
        requires known { IsKnownNode self.now seat.old node.0 }
        requires below { 0 < node.0 }
        ensures seat { IsTreeSeat self.now seat.new }
        ensures learns { Learns (view seat.old) (view seat.new) }
        ensures child { IfOk result (λ found. IsChild (slots_of self.now) (view seat.new)
            found.parent.0 found.depth (record { attr = found.attr; value = found.value }) node.0) }
    {
        self.rows.record(seat, u64::from(node.0) - 1, words)?;
        read_node(alloc, words.as_slice())
    }
}
