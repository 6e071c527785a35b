//! How many nodes the context tree of a run has.
ghost use Rattle.std.specs.Prelude.{◌≡◌, IfOk};
ghost use Rattle.cal_context.specs.Tree.{Grows};
ghost use Rattle.cal_run.specs.Numbers.{AreNumbered};
ghost use Rattle.cal_run.specs.Paths.{nodes};
ghost use Rattle.cal_script.specs.Valid.{IsRunnable};

use crate::held::HeldNodes;
use crate::walking::{hold_history, hold_threads};
use cal_context::Context;
use cal_run::Numbers;
use cal_script::{Journal, Script};
use cal_value::OutOfMemory;
use std::alloc::Global;

/// How many different paths the boards of the threads and of the process hold in a run. The context
/// gets the nodes of the run, also where an `Err` says that memory ran out. It takes time in the
/// lines, and for each in the slots in use.
pub fn count_nodes(
    alloc: Global,
    script: &Script,
    journal: &Journal,
    numbers: &Numbers,
    context: &mut Context,
) -> Result<u64, OutOfMemory>
    requires runnable { IsRunnable script.now }
    requires numbered { AreNumbered context.old script.now numbers.now }
    ensures counted { IfOk result (λ count. count ≡ nodes script.now journal.now) }
    ensures grows { Grows context.old context.new }
{
    let history = journal.ops.as_slice();
    let mut held = HeldNodes::new(alloc, context.seeds());
    hold_threads(alloc, script, numbers, context, &mut held)?;
    hold_history(alloc, script, numbers, history, context, &mut held)?;
    context.has_each_once();
    let each = held.nodes.as_slice();
    Ok(each.len() as u64)
}
