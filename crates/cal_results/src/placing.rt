//! A snapshot of a trace becomes one of a context.
ghost use Rattle.std.specs.Prelude.{◌≡◌, [], All, OnOk};
ghost use Rattle.cal_context.specs.Lists.{IsFront};
ghost use Rattle.cal_context.specs.Snapshots.{IsIn, meaning};
ghost use Rattle.cal_context.specs.Tree.{Grows};
ghost use Rattle.cal_nodes.specs.Numbers.{AreNumbered, IsNumbered, KeepsNumbers};
ghost use Rattle.cal_once.specs.Seats.{view};
ghost use Rattle.cal_once.specs.Views.{Learns};
ghost use Rattle.cal_results.specs.Tracing.{AreNumbersOf, SnapMeans};
ghost use Rattle.cal_tree.specs.Seats.{IsTreeSeat};
ghost use Rattle.cal_value.specs.declared.record.Rec.{Rec};

use cal_channel::TraceSnap;
use cal_context::{Context, NodeNumber, Snapshot};
use cal_nodes::ContextNodes;
use cal_script::Script;
use cal_tree::{Tree, TreeSeat};
use cal_value::OutOfMemory;
use cal_words::NodeId;
use std::alloc::Global;

/// Makes a snapshot of the context mean what one of a trace means, in place of what it meant
/// before, whose memory serves again. The nodes get their numbers in the context. After an `Err`
/// nothing is said of the snapshot.
pub(crate) fn place_snap(
    alloc: Global,
    script: &Script,
    shown: TraceSnap<'_>,
    tree: &Tree,
    seat: &mut TreeSeat,
    nodes: &mut ContextNodes,
    context: &mut Context,
    snapshot: &mut Snapshot,
) -> Result<(), OutOfMemory>
    requires seat { IsTreeSeat tree.now seat.old }
    requires numbered { AreNumbered tree.now seat.old context.old nodes.old }
    requires named { IsFront script.now.attributes context.old.attributes }
    requires means { (rec : Rec) × SnapMeans context.old script.now tree.now seat.old
        (record { nodes = shown.nodes.now; entries = shown.entries }) rec }
    ensures lies { OnOk result (IsIn context.new snapshot.new) }
    ensures means { OnOk result ((rec : Rec)
        → SnapMeans context.old script.now tree.now seat.old
        (record { nodes = shown.entry.nodes.now; entries = shown.entry.entries }) rec
        → meaning context.new snapshot.new ≡ rec) }
    ensures seat { IsTreeSeat tree.now seat.new }
    ensures learns { Learns (view seat.old) (view seat.new) }
    ensures grows { Grows context.old context.new }
    ensures attributes { context.new.attributes ≡ context.old.attributes }
    ensures numbered { AreNumbered tree.now seat.new context.new nodes.new }
    ensures keeps { KeepsNumbers nodes.old nodes.new }
{
    snapshot.clear();
    nodes.number_all(alloc, tree, seat, context, shown.nodes)?;
    add_numbers(nodes, shown.nodes, &mut snapshot.nodes)?;
    shown
        .entries
        .add_immediates(alloc, script, &mut snapshot.imms)?;
    Ok(())
}

/// Puts the numbers of nodes into a list that has none yet.
fn add_numbers(
    nodes: &ContextNodes,
    refs: &[NodeId],
    numbers: &mut Vec<NodeNumber>,
) -> Result<(), OutOfMemory>
    requires numbered { All (IsNumbered nodes.now) refs.now }
    requires none { numbers.old.items ≡ [] }
    ensures { OnOk result (AreNumbersOf nodes.now numbers.new.items refs.now) }
{
    for node in refs {
        numbers.push(nodes.numbered(*node))?;
    }
    Ok(())
}
