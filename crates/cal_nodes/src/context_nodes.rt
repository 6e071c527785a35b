ghost use Rattle.std.specs.Prelude.{◌≡◌, ◌+◌, ◌<◌, List, All, length, None, Some, Ok, IfOk, OnOk};
ghost use Rattle.std.specs.Prelude.{replicate};
ghost use Rattle.cal_board.specs.Contexts.{NodeStands};
ghost use Rattle.cal_board.specs.declared.opened.Opened.{Opened};
ghost use Rattle.cal_context.specs.Tree as contexts;
ghost use Rattle.cal_context.specs.Tree.{Grows};
ghost use Rattle.cal_context.specs.declared.numbers.NodeNumber as numbers;
ghost use Rattle.cal_hand.specs.Nodes.{NodeAt};
ghost use Rattle.cal_nodes.specs.Numbers.{AddsWay, AddsWays, AreNumbered, CanNumber, IsMet};
ghost use Rattle.cal_nodes.specs.Numbers.{IsNumbered, KeepsNumbers, number_in};
ghost use Rattle.cal_once.specs.Seats.{view};
ghost use Rattle.cal_once.specs.Views.{Learns};
ghost use Rattle.cal_once.specs.declared.seat.RowSeat.{RowSeat};
ghost use Rattle.cal_tree.specs.Seats.{IsTreeSeat, plan_of};
ghost use Rattle.cal_tree.specs.declared.tree.Tree as trees;
ghost use Rattle.cal_value.specs.declared.variant.Variant.{Variant};
ghost use Rattle.cal_words.specs.Shapes.{IsShape};
ghost use Rattle.cal_words.specs.declared.sort.NodeSort.{NodeSort};

use crate::ahead::look_ahead;
use crate::descent::descend;
use crate::numbers::number_at;
use crate::way::Way;
use cal_context::{Context, NodeNumber};
use cal_tree::{Tree, TreeSeat};
use cal_value::OutOfMemory;
use cal_words::{NodeId, Shape};
use std::alloc::Global;
use std::marker::Model;

/// The nodes of a shared tree that have numbers in a context. Contracts see a number, or none, for
/// each node, the root's first, which has none.
#[derive(Drop)]
pub struct ContextNodes {
    numbers: Vec<Option<NodeNumber>>,
    way: Way,
}

impl Model for ContextNodes {
    ghost use Rattle.std.specs.Prelude.{List, Option};
    ghost use Rattle.cal_context.specs.declared.numbers.NodeNumber.{NodeNumber};

    ghost Value = { List (Option NodeNumber) };

    ghost view = { λ nodes. nodes.numbers.items };
}

impl ContextNodes {
    /// No node of a tree of this shape has a number. It takes eight bytes for each slot, all at
    /// once, since the nodes of a run lie all over the slots.
    pub fn new(alloc: Global, shape: Shape) -> Result<ContextNodes, OutOfMemory>
        requires { IsShape shape }
        ensures none { IfOk result (λ nodes. nodes ≡ replicate (shape.slots + 1) None) }
        ensures numbered { IfOk result (λ nodes. (tree : trees.Tree) (seat : RowSeat NodeSort)
            (t : contexts.Tree) → (plan_of tree).shape ≡ shape → AreNumbered tree seat t nodes) }
    {
        let numbers = vec![in alloc; None; shape.slots as usize + 1]?;
        Ok(ContextNodes {
            numbers,
            way: Way::new(alloc),
        })
    }

    /// The number of a node in the context: at once where it has one, and else it is put there, and
    /// so is each node above it that has none, the outermost first. So over a whole run each node
    /// is read once and looked up once. It takes memory for what is new, and time in the nodes that
    /// have no number yet. After an `Err` some of them may have theirs.
    pub fn number_of(
        &mut self,
        alloc: Global,
        tree: &Tree,
        seat: &mut TreeSeat,
        context: &mut Context,
        node: NodeId,
    ) -> Result<NodeNumber, OutOfMemory>
        requires seat { IsTreeSeat tree.now seat.old }
        requires numbered { AreNumbered tree.now seat.old context.old self.old }
        requires node { CanNumber tree.now seat.old context.old node }
        ensures seat { IsTreeSeat tree.now seat.new }
        ensures learns { Learns (view seat.old) (view seat.new) }
        ensures grows { Grows context.old context.new }
        ensures attributes { context.new.attributes ≡ context.old.attributes }
        ensures numbered { AreNumbered tree.now seat.new context.new self.new }
        ensures keeps { KeepsNumbers self.old self.new }
        ensures number { IfOk result (λ n. number_in self.new node ≡ Some n) }
        ensures stands { (path : List (Opened Variant)) → NodeAt tree.now seat.new node path
            → IfOk result (λ n. NodeStands context.new n path) }
        ensures only { AddsWay tree.now seat.new context.new context.old node }
        ensures again { (n : numbers.NodeNumber) → number_in self.old node ≡ Some n
            → (result ≡ Ok n) × (context.new ≡ context.old) × (self.new ≡ self.old)
            × (seat.new ≡ seat.old) }
    {
        if let Some(number) = number_at(&self.numbers, node) {
            return Ok(number);
        }
        context.has_each_once();
        let start = self.way.climb(alloc, tree, seat, &self.numbers, node)?;
        descend(&mut self.numbers, context, start, &mut self.way.steps)
    }

    /// Gives each node of a list its number in the context, in order. It takes what `number_of`
    /// takes, and for each 32 nodes one look ahead at those that have none; after an `Err` some of
    /// them may have theirs.
    pub fn number_all(
        &mut self,
        alloc: Global,
        tree: &Tree,
        seat: &mut TreeSeat,
        context: &mut Context,
        nodes: &[NodeId],
    ) -> Result<(), OutOfMemory>
        requires seat { IsTreeSeat tree.now seat.old }
        requires numbered { AreNumbered tree.now seat.old context.old self.old }
        requires nodes { All (CanNumber tree.now seat.old context.old) nodes.now }
        ensures seat { IsTreeSeat tree.now seat.new }
        ensures learns { Learns (view seat.old) (view seat.new) }
        ensures grows { Grows context.old context.new }
        ensures attributes { context.new.attributes ≡ context.old.attributes }
        ensures numbered { AreNumbered tree.now seat.new context.new self.new }
        ensures keeps { KeepsNumbers self.old self.new }
        ensures only { AddsWays tree.now seat.new context.new context.old nodes.now }
        ensures all { OnOk result (All (IsNumbered self.new) nodes.now) }
    {
        for place in 0..nodes.len() {
            self.look_from(tree, seat, nodes, place);
            self.number_of(alloc, tree, seat, context, nodes[place])?;
        }
        Ok(())
    }

    // Looks ahead at the nodes of a list at some of its places.
    fn look_from(&self, tree: &Tree, seat: &mut TreeSeat, nodes: &[NodeId], place: usize)
        requires seat { IsTreeSeat tree.now seat.old }
        requires nodes { All (IsMet tree.now seat.old self.now) nodes.now }
        requires place { place < length nodes.now }
        ensures seat { IsTreeSeat tree.now seat.new }
        ensures learns { Learns (view seat.old) (view seat.new) }
    {
        let _ = &self.way;
        look_ahead(&self.numbers, tree, seat, nodes, place);
    }

    /// The number of a node that has one: a look at the list, without memory.
    pub fn numbered(&self, node: NodeId) -> NodeNumber
        requires { IsNumbered self.now node }
        ensures { number_in self.now node ≡ Some result }
    {
        let _ = &self.way;
        number_at(&self.numbers, node).unwrap()
    }
}
