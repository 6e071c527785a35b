ghost use Rattle.std.specs.Prelude.{◌≡◌, [], length, sum_by, IfOk, if◌then◌else◌};
ghost use Rattle.cal_context.specs.Tree.{Grows};
ghost use Rattle.cal_run.specs.Numbers.{AreNumbered};
ghost use Rattle.cal_run.specs.Paths.{nodes};
ghost use Rattle.cal_run.specs.Plain.{plain};
ghost use Rattle.cal_run.specs.Runs.{snapshots};
ghost use Rattle.cal_script.specs.Valid.{IsRunnable};

use crate::Numbers;
use crate::placing::plain_history;
use crate::walking::{Walk, walk_threads};
use cal_context::Context;
use cal_script::Script;
use cal_value::OutOfMemory;
use std::alloc::Global;

/// How large the run of the threads one after another is.
#[derive(Clone, Copy, Debug, PartialEq, Eq)]
pub struct PlainCounts {
    /// The different paths that the boards of the threads and of the process hold.
    pub nodes: usize,
    /// The snapshots that channels take: all, and those that stand in traces.
    pub in_all: u64,
    pub traced: u64,
}

/// Counts what boards hold and channels take in the run of the threads one after another. Nothing
/// is kept of a line, and no snapshot is made. It takes time in the lines, and for each in the
/// channels and in the slots in use.
pub fn count_plain(
    alloc: Global,
    script: &Script,
    numbers: &Numbers,
    context: &mut Context,
) -> Result<PlainCounts, OutOfMemory>
    requires runnable { IsRunnable script.now }
    requires numbered { AreNumbered context.old script.now numbers.now }
    ensures nodes { IfOk result (λ counts. counts.nodes ≡ nodes script.now (plain script.now)) }
    ensures in_all { IfOk result (λ counts. counts.in_all
        ≡ sum_by (λ channel. length (snapshots script.now (plain script.now) channel))
        script.now.channels) }
    ensures traced { IfOk result (λ counts. counts.traced
        ≡ sum_by (λ channel. length (if channel.trace
        then snapshots script.now (plain script.now) channel else [])) script.now.channels) }
    ensures grows { Grows context.old context.new }
{
    let history = plain_history(alloc, script)?;
    let ops = history.as_slice();
    let mut walk = Walk::new(alloc);
    walk_threads(alloc, script, numbers, ops, &mut walk, context)?;
    walk.own.add_held(&walk.placed, context)?;
    context.has_each_once();
    let held = walk.own.nodes.as_slice();
    Ok(PlainCounts {
        nodes: held.len(),
        in_all: walk.in_all,
        traced: walk.traced,
    })
}
