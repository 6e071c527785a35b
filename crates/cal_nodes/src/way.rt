//! The way up from a node.
ghost use Rattle.std.specs.Prelude.{◌<◌, List, Option, length, IfOk};
ghost use Rattle.cal_board.specs.declared.opened.Opened.{Opened};
ghost use Rattle.cal_context.specs.Tree as contexts;
ghost use Rattle.cal_hand.specs.Nodes.{NodeAt};
ghost use Rattle.cal_nodes.specs.Numbers.{AreNumbered};
ghost use Rattle.cal_nodes.specs.Ways.{IsStepUp, IsWay};
ghost use Rattle.cal_once.specs.Seats.{view};
ghost use Rattle.cal_once.specs.Views.{Learns};
ghost use Rattle.cal_tree.specs.Seats.{IsKnownNode, IsTreeSeat, slots_of};
ghost use Rattle.cal_value.specs.declared.variant.Variant as values;

use crate::numbers::number_at;
use cal_context::NodeNumber;
use cal_tree::{Tree, TreeSeat, Up};
use cal_value::{OutOfMemory, Variant};
use cal_words::{Node, NodeId};
use std::alloc::Global;

/// A node on the way up, with its own entry.
#[derive(Drop)]
pub(crate) struct Step {
    pub node: NodeId,
    pub attr: u32,
    pub value: Variant,
}

/// The nodes on a way up, the innermost first. Its memory serves again.
#[derive(Drop)]
pub(crate) struct Way {
    pub steps: Vec<Step>,
    // of the node that was read last
    words: Vec<u64>,
}

impl Way {
    /// No node. It takes no memory.
    pub(crate) fn new(alloc: Global) -> Way {
        Way {
            steps: Vec::new(alloc),
            words: Vec::new(alloc),
        }
    }

    /// Reads the nodes from one that has no number up to the first whose parent has one, in place
    /// of the steps that are there, and gives that number: the root's where no parent has.
    pub(crate) fn climb(
        &mut self,
        alloc: Global,
        tree: &Tree,
        seat: &mut TreeSeat,
        numbers: &[Option<NodeNumber>],
        node: NodeId,
    ) -> Result<NodeNumber, OutOfMemory>
        requires seat { IsTreeSeat tree.now seat.old }
        requires known { (path : List (Opened values.Variant))
            × NodeAt tree.now seat.old node path }
        requires long { slots_of tree.now < length numbers.now }
        ensures seat { IsTreeSeat tree.now seat.new }
        ensures learns { Learns (view seat.old) (view seat.new) }
        ensures way { (t : contexts.Tree) (path : List (Opened values.Variant))
            → AreNumbered tree.now seat.old t numbers.now → NodeAt tree.now seat.new node path
            → IfOk result (λ start.
            IsWay tree.now seat.new t numbers.now start self.new.steps.items path) }
    {
        self.steps.clear();
        let mut up = self.read(alloc, tree, seat, node)?;
        while up.parent.0 != 0 {
            if let Some(number) = number_at(numbers, up.parent) {
                return Ok(number);
            }
            up = self.read(alloc, tree, seat, up.parent)?;
        }
        Ok(NodeNumber::ROOT)
    }

    // Reads a node, and puts it behind the others. The seat then knows its parent.
    fn read(
        &mut self,
        alloc: Global,
        tree: &Tree,
        seat: &mut TreeSeat,
        node: NodeId,
    ) -> Result<Up, OutOfMemory>
        requires seat { IsTreeSeat tree.now seat.old }
        requires known { IsKnownNode tree.now seat.old node.0 }
        requires below { 0 < node.0 }
        ensures seat { IsTreeSeat tree.now seat.new }
        ensures learns { Learns (view seat.old) (view seat.new) }
        ensures parent { IfOk result (λ up. IsKnownNode tree.now seat.new up.parent.0) }
        ensures step { IfOk result (λ up.
            IsStepUp tree.now seat.new self.old.steps.items self.new.steps.items node up) }
    {
        let found = tree.read(alloc, seat, node, &mut self.words)?;
        let Node {
            parent,
            depth,
            attr,
            value,
        } = found;
        self.steps.push(Step { node, attr, value })?;
        Ok(Up {
            parent,
            depth,
            attr,
        })
    }
}
