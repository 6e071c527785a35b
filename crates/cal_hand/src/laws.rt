ghost use Rattle.std.specs.Prelude.{ℕ};
ghost use Rattle.cal_board.specs.Blackboard.{Blackboard};
ghost use Rattle.cal_board.specs.Standing.{Stands};
ghost use Rattle.cal_hand.specs.Nodes.{IsNodeFor};
ghost use Rattle.cal_once.specs.Views.{KnowsMore, joined};
ghost use Rattle.cal_once.specs.declared.view.View.{View};
ghost use Rattle.cal_value.specs.declared.variant.Variant.{Variant};
ghost use Rattle.cal_words.specs.declared.node.NodeId.{NodeId};
ghost use Rattle.cal_words.specs.declared.sort.NodeSort.{NodeSort};

/// What a board of nodes stands for, as a seat knows, it stands for however much the seat learns,
/// whatever is done to other boards by it; and the first seat knows it once that seat was joined.
pub fn boards_for_good()
    ensures later { (slots : ℕ) (v w : View NodeSort) (held : Blackboard NodeId)
        (b : Blackboard Variant) → KnowsMore v w → Stands (IsNodeFor slots v) held b →
        Stands (IsNodeFor slots w) held b }
    ensures other { (slots : ℕ) (v w : View NodeSort) (held : Blackboard NodeId)
        (b : Blackboard Variant) → Stands (IsNodeFor slots w) held b →
        Stands (IsNodeFor slots (joined v w)) held b }
{}
