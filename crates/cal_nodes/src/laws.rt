ghost use Rattle.std.specs.Prelude.{◌≡◌, List, Option, Some};
ghost use Rattle.cal_board.specs.Contexts.{NodeStands};
ghost use Rattle.cal_board.specs.declared.opened.Opened.{Opened};
ghost use Rattle.cal_context.specs.Tree as contexts;
ghost use Rattle.cal_context.specs.Tree.{Grows};
ghost use Rattle.cal_context.specs.declared.numbers.NodeNumber.{NodeNumber};
ghost use Rattle.cal_hand.specs.Nodes.{NodeAt};
ghost use Rattle.cal_nodes.specs.Numbers.{AreNumbered, CanNumber, number_in};
ghost use Rattle.cal_once.specs.Seats.{view};
ghost use Rattle.cal_once.specs.Views.{KnowsMore};
ghost use Rattle.cal_once.specs.declared.seat.RowSeat.{RowSeat};
ghost use Rattle.cal_tree.specs.Seats.{IsTreeSeat};
ghost use Rattle.cal_tree.specs.declared.tree.Tree.{Tree};
ghost use Rattle.cal_value.specs.declared.variant.Variant.{Variant};
ghost use Rattle.cal_words.specs.declared.node.NodeId.{NodeId};
ghost use Rattle.cal_words.specs.declared.sort.NodeSort.{NodeSort};

/// Numbers stand for their nodes, and nodes can be numbered, however much more is known of the
/// tree, and however much the context grows.
pub fn numbers_stay_numbered()
    ensures numbered { (tree : Tree) (was is : RowSeat NodeSort) (old new : contexts.Tree)
        (numbers : List (Option NodeNumber)) → KnowsMore (view was) (view is) → Grows old new
        → AreNumbered tree was old numbers → AreNumbered tree is new numbers }
    ensures can { (tree : Tree) (was is : RowSeat NodeSort) (old new : contexts.Tree)
        (node : NodeId) → KnowsMore (view was) (view is) → Grows old new
        → CanNumber tree was old node → CanNumber tree is new node }
{}

/// A number stands for whatever a seat knows as its node's path.
pub fn numbers_stand()
    ensures { (tree : Tree) (seat : RowSeat NodeSort) (t : contexts.Tree)
        (numbers : List (Option NodeNumber)) (node : NodeId) (n : NodeNumber)
        (path : List (Opened Variant)) → IsTreeSeat tree seat → AreNumbered tree seat t numbers
        → number_in numbers node ≡ Some n → NodeAt tree seat node path → NodeStands t n path }
{}
