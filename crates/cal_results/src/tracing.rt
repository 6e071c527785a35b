//! A trace, handed to a taker.
ghost use Rattle.std.specs.Prelude.{◌≡◌, List, OnOk};
ghost use Rattle.cal_context.specs.Lists.{IsFront};
ghost use Rattle.cal_context.specs.Taking.{TakesMore};
ghost use Rattle.cal_context.specs.Tree.{Grows};
ghost use Rattle.cal_nodes.specs.Numbers.{AreNumbered, KeepsNumbers};
ghost use Rattle.cal_once.specs.Seats.{view};
ghost use Rattle.cal_once.specs.Views.{Learns};
ghost use Rattle.cal_results.specs.Tracing.{TraceMeans};
ghost use Rattle.cal_tree.specs.Seats.{IsTreeSeat};
ghost use Rattle.cal_value.specs.declared.record.Rec.{Rec};

use crate::placing::place_snap;
use cal_channel::Trace;
use cal_context::{Context, Snapshot, Taker};
use cal_nodes::ContextNodes;
use cal_script::Script;
use cal_tree::{Tree, TreeSeat};
use cal_value::OutOfMemory;
use std::alloc::Global;

/// Hands the snapshots of a trace to a taker, in their order, as snapshots of the context. A node
/// gets its number there if it has none. It takes memory for what is new in the context, for the
/// longest snapshot and for texts, and time in the nodes and entries of the trace and in the nodes
/// that had no number. After an `Err` some nodes may have theirs, and nothing is said of the taker.
pub fn take_trace<T: Taker>(
    alloc: Global,
    script: &Script,
    trace: &Trace,
    tree: &Tree,
    seat: &mut TreeSeat,
    nodes: &mut ContextNodes,
    context: &mut Context,
    taker: &mut T,
) -> Result<(), OutOfMemory>
    requires seat { IsTreeSeat tree.now seat.old }
    requires numbered { AreNumbered tree.now seat.old context.old nodes.old }
    requires named { IsFront script.now.attributes context.old.attributes }
    requires means { (recs : List Rec)
        × TraceMeans context.old script.now tree.now seat.old trace.now recs }
    ensures taken { OnOk result ((recs : List Rec)
        → TraceMeans context.old script.now tree.now seat.old trace.now recs
        → TakesMore (T.has_taken taker.old context.old) (T.has_taken taker.new context.new) recs) }
    ensures seat { IsTreeSeat tree.now seat.new }
    ensures learns { Learns (view seat.old) (view seat.new) }
    ensures grows { Grows context.old context.new }
    ensures attributes { context.new.attributes ≡ context.old.attributes }
    ensures numbered { AreNumbered tree.now seat.new context.new nodes.new }
    ensures keeps { KeepsNumbers nodes.old nodes.new }
    ensures about { OnOk result (T.about taker.new ≡ T.about taker.old) }
{
    let mut snapshot = Snapshot::new(alloc);
    for place in 0..trace.len() {
        let shown = trace.snap(place);
        place_snap(
            alloc,
            script,
            shown,
            tree,
            seat,
            nodes,
            context,
            &mut snapshot,
        )?;
        taker.take(context, &snapshot)?;
    }
    Ok(())
}
