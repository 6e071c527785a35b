//! Laws of the room in a run's history. Nothing here is ever run.

ghost use Rattle.std.specs.Prelude.{◌≡◌, ℕ, ◌+◌, ◌<◌, List, [], ◌∷◌, ◌++◌, length, IsOk, Ok};
ghost use Rattle.std.specs.Prelude.{Result};
ghost use Rattle.cal_once.specs.Seats.{view};
ghost use Rattle.cal_once.specs.Views.{Learns, first_seat, joined, new_seat, noting, split_off};
ghost use Rattle.cal_once.specs.declared.seat.RowSeat.{RowSeat};
ghost use Rattle.cal_once.specs.declared.view.Plan.{Plan};
ghost use Rattle.cal_once.specs.declared.view.View.{View};
ghost use Rattle.cal_plog.specs.Answers.{Appends};
ghost use Rattle.cal_plog.specs.History.{HasSeen};
ghost use Rattle.cal_plog.specs.Seats.{IsLogSeat, plan_of, slots_of};
ghost use Rattle.cal_plog.specs.declared.append.LogFull.{LogFull};
ghost use Rattle.cal_process.specs.Replicas.{HasTaken, IsCommon};
ghost use Rattle.cal_process.specs.Takings.{OnlyLearns, TakesAll};
ghost use Rattle.cal_process.specs.declared.common.Common.{Common};
ghost use Rattle.cal_process.specs.declared.replica.Replica.{Replica};
ghost use Rattle.cal_process.specs.Rooms.{MayAppend, UsesSevenEach};
ghost use Rattle.cal_words.specs.declared.op.OpRec.{OpRec};
ghost use Rattle.cal_words.specs.declared.sort.NodeSort.{NodeSort};
ghost use Rattle.cal_words.specs.declared.sort.OpSort.{OpSort};

/// The law of the room. What a seat has seen of the history, or a replica has taken in, never fills
/// the slots; so a look for all operations ends at a slot that was found empty. And whatever an
/// append of an operation that the seat may append answers, it is a place and no refusal.
pub fn history_never_full_law()
    ensures seen { (common : Common) (seat : RowSeat OpSort) (ops : List OpRec)
        → IsCommon common → IsLogSeat common.log seat
        → HasSeen (slots_of common.log) (view seat) ops → length ops < slots_of common.log }
    ensures taken { (common : Common) (seat : RowSeat NodeSort) (p : Replica) (h : List OpRec)
        → IsCommon common → HasTaken common seat p h → p.seen < slots_of common.log }
    ensures looked { (common : Common) (was is : RowSeat NodeSort) (old new : Replica)
        (h : List OpRec) → IsCommon common → TakesAll common was is old new h
        → (view new.log).looks ≡ (view old.log).looks ++ new.seen ∷ [] }
    ensures appended { (common : Common) (old new : RowSeat OpSort) (op : OpRec)
        (result : Result ℕ LogFull) → IsCommon common → IsLogSeat common.log old
        → IsLogSeat common.log new → MayAppend common (view old) op
        → Appends (plan_of common.log) op (view old) (view new) result → IsOk result }
{}

/// The law of the words in use. A seat has seven in use for each operation that it appended: so it
/// is at the first seat and at each new one, and so it stays as the seat learns, takes operations
/// in, notes an empty slot or appends, and as other seats are split off and joined.
pub fn words_in_use_law()
    ensures first { (plan : Plan OpSort) → UsesSevenEach (first_seat plan) }
    ensures new { (v : View OpSort) → UsesSevenEach (new_seat v) }
    ensures learns { (v w : View OpSort) → Learns v w → UsesSevenEach v → UsesSevenEach w }
    ensures taken { (v w : View OpSort) → OnlyLearns v w → UsesSevenEach v → UsesSevenEach w }
    ensures noted { (place : ℕ) (v : View OpSort) → UsesSevenEach v
        → UsesSevenEach (noting place v) }
    ensures split { (v : View OpSort) → UsesSevenEach v → UsesSevenEach (split_off v) }
    ensures joined { (v w : View OpSort) → UsesSevenEach v → UsesSevenEach (joined v w) }
    ensures placed { (place : ℕ) (v w : View OpSort) → w.published ≡ v.published ++ place ∷ []
        → w.used ≡ v.used + 7 → UsesSevenEach v → UsesSevenEach w }
    ensures appended { (plan : Plan OpSort) (op : OpRec) (v w : View OpSort) (place : ℕ)
        → Appends plan op v w (Ok place) → UsesSevenEach v → UsesSevenEach w }
{}
