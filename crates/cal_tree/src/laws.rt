ghost use Rattle.std.specs.Prelude.{◌≡◌, ◌↔◌, ℕ, List};
ghost use Rattle.cal_words.specs.declared.sort.NodeSort.{NodeSort};
ghost use Rattle.cal_once.specs.declared.view.View.{View};
ghost use Rattle.cal_once.specs.declared.view.Plan.{Plan};
ghost use Rattle.cal_once.specs.Views.{KnowsMore, joined};
ghost use Rattle.cal_once.specs.Sound.{IsSound};
ghost use Rattle.cal_tree.specs.Paths.{HasPath, NodeEntry};
ghost use Rattle.cal_tree.specs.Seats.{node_law};

/// A node's path, once a seat knows it, stays what it is; and the first seat knows it after a join.
pub fn paths_for_good()
    ensures later { (slots : ℕ) (v w : View NodeSort) (path : List NodeEntry) (node : ℕ) →
        KnowsMore v w → HasPath slots v path node → HasPath slots w path node }
    ensures first { (slots : ℕ) (v w : View NodeSort) (path : List NodeEntry) (node : ℕ) →
        HasPath slots v path node → HasPath slots (joined v w) path node }
    ensures other { (slots : ℕ) (v w : View NodeSort) (path : List NodeEntry) (node : ℕ) →
        HasPath slots w path node → HasPath slots (joined v w) path node }
{}

/// Two nodes that a seat knows are one exactly where their paths are equal.
pub fn one_path_each()
    ensures { (plan : Plan NodeSort) (v : View NodeSort) (p q : List NodeEntry) (m n : ℕ) →
        IsSound node_law plan v → HasPath plan.shape.slots v p m → HasPath plan.shape.slots v q n →
        ((m ≡ n) ↔ (p ≡ q)) }
{}
