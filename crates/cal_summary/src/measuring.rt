ghost use Rattle.std.specs.Prelude.{IfOk};
ghost use Rattle.cal_run.specs.Numbers.{AreNumbered};
ghost use Rattle.cal_summary.specs.Counted.{IsMeasured};
ghost use Rattle.cal_script.specs.Valid.{IsRunnable};

use cal_context::Context;
use cal_records::{put_globals, take_plain_run};
use cal_run::Numbers;
use cal_script::Script;
use cal_seeds::Seeds;
use cal_value::OutOfMemory;
use cal_write::{Measure, Measurer};
use std::alloc::Global;

/// How many rows the run of the threads one after another has, and how many bytes the text of its
/// records, of which nothing is kept.
pub(crate) fn measure_run(
    alloc: Global,
    seeds: Seeds,
    script: &Script,
) -> Result<Measure, OutOfMemory>
    requires { IsRunnable script.now }
    ensures { IfOk result (IsMeasured script.now) }
{
    let mut context = Context::seeded(alloc, seeds);
    let numbers = Numbers::of(alloc, script, &mut context)?;
    measure_in(alloc, script, &numbers, &mut context)
}

/// The same in a context that has the script's attributes and values.
fn measure_in(
    alloc: Global,
    script: &Script,
    numbers: &Numbers,
    context: &mut Context,
) -> Result<Measure, OutOfMemory>
    requires runnable { IsRunnable script.now }
    requires numbered { AreNumbered context.old script.now numbers.now }
    ensures { IfOk result (IsMeasured script.now) }
{
    let mut measurer = Measurer::seeded(alloc, context.seeds())?;
    take_plain_run(alloc, script, numbers, context, &mut measurer)?;
    let globals = put_globals(alloc, script.globals.as_slice(), context)?;
    measurer.finish(context, &globals)
}
