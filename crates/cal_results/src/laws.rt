//! What traces mean stays.
ghost use Rattle.std.specs.Prelude.{List};
ghost use Rattle.cal_channel.specs.Traces.{ShownSnap};
ghost use Rattle.cal_context.specs.Tree as contexts;
ghost use Rattle.cal_context.specs.Tree.{Grows};
ghost use Rattle.cal_once.specs.Seats.{view};
ghost use Rattle.cal_once.specs.Views.{KnowsMore};
ghost use Rattle.cal_once.specs.declared.seat.RowSeat.{RowSeat};
ghost use Rattle.cal_results.specs.Tracing.{TraceMeans};
ghost use Rattle.cal_script.specs.declared.script.Script.{Script};
ghost use Rattle.cal_tree.specs.declared.tree.Tree.{Tree};
ghost use Rattle.cal_value.specs.declared.record.Rec.{Rec};
ghost use Rattle.cal_words.specs.declared.sort.NodeSort.{NodeSort};

/// What the snapshots of a trace mean they mean for good, however much a seat learns, and however
/// much the context grows: so the traces of many threads may be handed on one after another.
pub fn traces_mean_for_good()
    ensures { (script : Script) (tree : Tree) (was is : RowSeat NodeSort) (old new : contexts.Tree)
        (snaps : List ShownSnap) (recs : List Rec) → KnowsMore (view was) (view is)
        → Grows old new → TraceMeans old script tree was snaps recs
        → TraceMeans new script tree is snaps recs }
{}
