ghost use Rattle.std.specs.Prelude.{ℕ, List, All, length};
ghost use Rattle.cal_ending.specs.Joining.{AreInOrder, IsJoined};
ghost use Rattle.cal_once.specs.Seats.{view};
ghost use Rattle.cal_once.specs.Views.{AllJoined, IsLater};
ghost use Rattle.cal_once.specs.declared.seat.RowSeat.{RowSeat};
ghost use Rattle.cal_plog.specs.History.{HasSeen};
ghost use Rattle.cal_plog.specs.Seats.{slots_of};
ghost use Rattle.cal_process.specs.Takings.{OnlyLearns};
ghost use Rattle.cal_process.specs.declared.common.Common.{Common};
ghost use Rattle.cal_thread.specs.Hiring.{HasHired};
ghost use Rattle.cal_thread.specs.declared.thread.Thread.{Thread};
ghost use Rattle.cal_tree.specs.Paths.{NodeEntry};
ghost use Rattle.cal_tree.specs.Seats.{IsPathOf};
ghost use Rattle.cal_words.specs.declared.op.OpRec.{OpRec};
ghost use Rattle.cal_words.specs.declared.sort.NodeSort.{NodeSort};
ghost use Rattle.cal_words.specs.declared.sort.OpSort.{OpSort};

/// The law of a thread whose seats were joined: what it has seen of the history the first seat has
/// seen, and each path that it knows the first seat knows; and this stays while they learn more.
pub fn joined_thread_law()
    ensures seen { (common : Common) (tree : RowSeat NodeSort) (log : RowSeat OpSort) (t : Thread)
        (h : List OpRec) → IsJoined tree log t
        → HasSeen (slots_of common.log) (view t.process.log) h
        → HasSeen (slots_of common.log) (view log) h }
    ensures paths { (common : Common) (tree : RowSeat NodeSort) (log : RowSeat OpSort) (t : Thread)
        (path : List NodeEntry) (node : ℕ) → IsJoined tree log t
        → IsPathOf common.tree t.tree path node → IsPathOf common.tree tree path node }
    ensures stays { (tree later_tree : RowSeat NodeSort) (log later_log : RowSeat OpSort)
        (t : Thread) → IsLater (view tree) (view later_tree)
        → OnlyLearns (view log) (view later_log) → IsJoined tree log t
        → IsJoined later_tree later_log t }
{}

/// The law of all threads: once the seats of each thread of a run are joined, no seat is away.
pub fn all_joined_law()
    ensures { (common : Common) (tree : RowSeat NodeSort) (log : RowSeat OpSort) (ts : List Thread)
        → HasHired common tree log (length ts) → AreInOrder ts → All (IsJoined tree log) ts
        → AllJoined (view tree) × AllJoined (view log) }
{}
