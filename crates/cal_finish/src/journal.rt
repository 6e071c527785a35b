//! The journal of a run whose threads have ended.
ghost use Rattle.std.specs.Prelude.{◌≡◌, All, IfOk, length};
ghost use Rattle.cal_ending.specs.Joining.{AreInOrder};
ghost use Rattle.cal_finish.specs.Threads.{IsWholeFor, KnowsNodesOf};
ghost use Rattle.cal_once.specs.Seats.{view};
ghost use Rattle.cal_once.specs.Views.{AllJoined};
ghost use Rattle.cal_plog.specs.Seats.{IsLogSeat};
ghost use Rattle.cal_replay.specs.Workers.{IsShared, script_of};
ghost use Rattle.cal_run.specs.Lawful.{IsKnown};
ghost use Rattle.cal_thread.specs.Hiring.{HasHired};
ghost use Rattle.cal_thread.specs.Threads.{HasSomeState};
ghost use Rattle.cal_tree.specs.Seats.{IsTreeSeat};

use cal_ending::{join_threads, read_history};
use cal_plog::LogSeat;
use cal_replay::Shared;
use cal_script::{Journal, ThreadNote};
use cal_thread::Thread;
use cal_tree::TreeSeat;
use cal_value::{OutOfMemory, Seq};
use std::alloc::Global;

/// Ends the threads of a run, which are given in the order of their numbers: joins their seats and
/// reads the whole history. The journal is what they noted, with that history. It takes nine loads
/// and eight bytes of memory an operation. An `Err` is want of that memory: then too the seats are
/// joined, and the notes are dropped.
pub fn end_threads(
    alloc: Global,
    shared: &Shared<'_>,
    threads: Vec<Thread>,
    notes: Seq<ThreadNote>,
    tree: &mut TreeSeat,
    log: &mut LogSeat,
) -> Result<Journal, OutOfMemory>
    requires shared { IsShared shared.now }
    requires hired { HasHired shared.now.common tree.old log.old (length threads.items) }
    requires threads { All (HasSomeState shared.now.common) threads.items }
    requires order { AreInOrder threads.items }
    ensures real { IfOk result (λ j. j.real ≡ shared.now.real) }
    ensures noted { IfOk result (λ j. j.threads ≡ notes) }
    ensures known { IfOk result (λ j. All (IsKnown (script_of shared.now)) j.ops) }
    ensures begins { IfOk result (λ j. IsWholeFor shared.now.common threads.items j.ops) }
    ensures joined { All (KnowsNodesOf tree.new) threads.items }
    ensures nodes { AllJoined (view tree.new) }
    ensures seat { IsTreeSeat shared.now.common.tree tree.new }
    ensures history { IsLogSeat shared.now.common.log log.new }
{
    join_threads(&shared.common, threads, tree, log);
    let ops = read_history(alloc, &shared.common, log)?;
    Ok(Journal {
        real: shared.real,
        ops,
        threads: notes,
    })
}
