//! Laws of the room in a run's tree of nodes. Nothing here is ever run.

ghost use Rattle.std.specs.Prelude.{◌≡◌, ◌≢◌, ◌+◌, ◌<◌, ◌++◌, ◌∷◌, ℕ, [], List, Some, false};
ghost use Rattle.cal_hand.specs.Rooms.{HasNodeRoom};
ghost use Rattle.cal_once.specs.Seats.{view};
ghost use Rattle.cal_once.specs.Views.{Learns, known_count};
ghost use Rattle.cal_once.specs.declared.seat.RowSeat.{RowSeat};
ghost use Rattle.cal_once.specs.declared.view.View.{View};
ghost use Rattle.cal_plog.specs.History.{HasSeen};
ghost use Rattle.cal_plog.specs.Seats as history;
ghost use Rattle.cal_process.specs.Operations.{operation_in, own_words};
ghost use Rattle.cal_process.specs.Replicas.{AddsWords, IsCommon};
ghost use Rattle.cal_process.specs.Takings.{words_of_ops};
ghost use Rattle.cal_process.specs.declared.common.Common.{Common};
ghost use Rattle.cal_process.specs.Rooms.{HasRoomFor, HasRoomToDo, UsesAtMost};
ghost use Rattle.cal_run.specs.Lines.{attribute_of, is_process_line, line_at, operation_of};
ghost use Rattle.cal_run.specs.Lines.{value_of};
ghost use Rattle.cal_run.specs.declared.operation.Operation.{Operation};
ghost use Rattle.cal_script.specs.declared.script.Line.{Line};
ghost use Rattle.cal_tree.specs.Seats.{IsTreeSeat, slots_of};
ghost use Rattle.cal_value.specs.Props.{is_as_value};
ghost use Rattle.cal_value.specs.declared.variant.Variant.{Variant};
ghost use Rattle.cal_words.specs.declared.op.OpCode.TheVariants as code;
ghost use Rattle.cal_words.specs.declared.op.OpRec.{OpRec};
ghost use Rattle.cal_words.specs.declared.sort.NodeSort.{NodeSort};
ghost use Rattle.cal_words.specs.declared.sort.OpSort.{OpSort};

/// The law of the room in the tree. A seat knows fewer nodes than there are slots. So where a seat's
/// arena has room for the node of a value, the tree has: no such node is refused.
pub fn tree_never_full_law()
    ensures known { (common : Common) (seat : RowSeat NodeSort) → IsCommon common
        → IsTreeSeat common.tree seat
        → known_count (view seat) (slots_of common.tree) < slots_of common.tree }
    ensures room { (common : Common) (seat : RowSeat NodeSort) (value : Variant) → IsCommon common
        → HasRoomFor common (view seat) value → HasNodeRoom common.tree seat value }
{}

/// The law of the words in use in the tree. A seat uses no more of them than the operations make
/// which its thread has seen, and the thread's own lines which it has done: so it is at the start,
/// and so it stays as the seat learns, operations are taken in and lines are done.
pub fn words_in_tree_law()
    ensures start { (common : Common) (v : View NodeSort) (thread : ℕ) → v.used ≡ 0
        → UsesAtMost common v [] thread 0 }
    ensures learned { (common : Common) (v w : View NodeSort) (h : List OpRec) (thread done : ℕ)
        → Learns v w → UsesAtMost common v h thread done → UsesAtMost common w h thread done }
    ensures taken { (common : Common) (was is : RowSeat NodeSort) (h ops : List OpRec)
        (thread done : ℕ) → AddsWords common was is (words_of_ops common.script.now ops)
        → UsesAtMost common (view was) h thread done
        → UsesAtMost common (view is) (h ++ ops) thread done }
    ensures line { (common : Common) (was is : RowSeat NodeSort) (h ops : List OpRec)
        (thread done : ℕ) (l : Line) → line_at common.script.now thread (done + 1) ≡ Some l
        → AddsWords common was is
        (words_of_ops common.script.now ops + own_words common.script.now l)
        → UsesAtMost common (view was) h thread done
        → UsesAtMost common (view is) (h ++ ops) thread (done + 1) }
    ensures later { (common : Common) (v : View NodeSort) (h : List OpRec) (thread done : ℕ)
        → UsesAtMost common v h thread done → UsesAtMost common v h thread (done + 1) }
{}

/// The law of the room for nodes. A seat that uses no more words than that has room for the node of
/// the operation that its thread takes in next, and for that of the thread's next line, where it is
/// its own: so the tree refuses neither.
pub fn room_for_nodes_law()
    ensures shared { (common : Common) (seat : RowSeat OpSort) (v : View NodeSort)
        (h : List OpRec) (op : OpRec) (thread done : ℕ) → IsCommon common
        → history.IsLogSeat common.log seat
        → HasSeen (history.slots_of common.log) (view seat) (h ++ op ∷ [])
        → UsesAtMost common v h thread done → HasRoomToDo common v (operation_in op) }
    ensures own { (common : Common) (seat : RowSeat OpSort) (v : View NodeSort)
        (h : List OpRec) (thread done : ℕ) (l : Line) (op : Operation) → IsCommon common
        → history.IsLogSeat common.log seat
        → HasSeen (history.slots_of common.log) (view seat) h
        → UsesAtMost common v h thread done
        → line_at common.script.now thread (done + 1) ≡ Some l
        → is_process_line common.script.now l ≡ false → operation_of l ≡ Some op
        → HasRoomToDo common v op }
    ensures node { (common : Common) (v : View NodeSort) (op : Operation) → op.code ≢ code.End
        → is_as_value (attribute_of common.script.now op.attr).props ≡ false
        → HasRoomToDo common v op → HasRoomFor common v (value_of common.script.now op) }
{}
