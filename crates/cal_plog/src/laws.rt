ghost use Rattle.std.specs.Prelude.{◌≡◌, ◌≢◌, ℕ, ◌+◌, ◌<◌, List, length, slice_index_or};
ghost use Rattle.std.specs.List.{Contains};
ghost use Rattle.cal_words.specs.declared.op.OpRec.{OpRec};
ghost use Rattle.cal_words.specs.declared.sort.OpSort.{OpSort};
ghost use Rattle.cal_once.specs.declared.view.View.{View};
ghost use Rattle.cal_once.specs.declared.view.Plan.{Plan};
ghost use Rattle.cal_once.specs.Layout.{times};
ghost use Rattle.cal_once.specs.Views.{KnowsMore, joined};
ghost use Rattle.cal_once.specs.Sound.{IsSound};
ghost use Rattle.cal_plog.specs.History.{HasJoined, HasOp, HasSeen};
ghost use Rattle.cal_plog.specs.Seats.{op_law};

/// What a seat has seen of the history never shrinks, and the first seat has seen it after a join.
pub fn history_for_good()
    ensures later { (slots : ℕ) (v w : View OpSort) (ops : List OpRec) →
        KnowsMore v w → HasSeen slots v ops → HasSeen slots w ops }
    ensures first { (slots : ℕ) (v w : View OpSort) (ops : List OpRec) →
        HasSeen slots v ops → HasSeen slots (joined v w) ops }
    ensures other { (slots : ℕ) (v w : View OpSort) (ops : List OpRec) →
        HasSeen slots w ops → HasSeen slots (joined v w) ops }
{}

/// There is one history: of two beginnings that a seat has seen, the shorter begins the longer.
pub fn one_history()
    ensures { (plan : Plan OpSort) (v : View OpSort) (a b : List OpRec) → IsSound op_law plan v →
        HasSeen plan.shape.slots v a → HasSeen plan.shape.slots v b → (k : ℕ) (d : OpRec) →
        k < length a → k < length b → slice_index_or a k d ≡ slice_index_or b k d }
{}

/// Each operation that a seat has read is one of those that may be appended; it is of the seat's
/// own thread exactly where the seat published it, and then once.
pub fn own_operations()
    ensures among { (plan : Plan OpSort) (v : View OpSort) (place : ℕ) (op : OpRec) →
        IsSound op_law plan v → HasOp plan.shape.slots v place op → Contains plan.sort.ops op }
    ensures once { (plan : Plan OpSort) (v : View OpSort) (place : ℕ) (op : OpRec) →
        IsSound op_law plan v → HasOp plan.shape.slots v place op → v.number ≡ op.thread + 1 →
        times place v.published ≡ 1 }
    ensures alone { (plan : Plan OpSort) (v : View OpSort) (place : ℕ) (op : OpRec) →
        IsSound op_law plan v → HasOp plan.shape.slots v place op →
        0 < times place v.published → v.number ≡ op.thread + 1 }
{}

/// What the first seat knows of a thread whose seat was joined: which places that seat had published,
/// and that they are those of the thread's operations, once each.
pub fn published_by()
    ensures joined { (v w : View OpSort) (thread : ℕ) → w.number ≡ thread + 1 →
        thread < length v.others → HasJoined (joined v w) thread w.published }
    ensures stays { (v w : View OpSort) (other thread : ℕ) (places : List ℕ) →
        w.number ≡ other + 1 → other ≢ thread → HasJoined v thread places →
        HasJoined (joined v w) thread places }
    ensures own { (plan : Plan OpSort) (v : View OpSort) (thread : ℕ) (places : List ℕ) →
        IsSound op_law plan v → v.number ≡ 0 → HasJoined v thread places →
        (place : ℕ) (op : OpRec) → HasOp plan.shape.slots v place op → op.thread ≡ thread →
        times place places ≡ 1 }
    ensures others { (plan : Plan OpSort) (v : View OpSort) (thread : ℕ) (places : List ℕ) →
        IsSound op_law plan v → v.number ≡ 0 → HasJoined v thread places →
        (place : ℕ) (op : OpRec) → HasOp plan.shape.slots v place op → op.thread ≢ thread →
        times place places ≡ 0 }
{}
