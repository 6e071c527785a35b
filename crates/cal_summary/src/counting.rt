ghost use Rattle.std.specs.Prelude.{◌≡◌, ◌≤◌, length, sum_by, IfOk};
ghost use Rattle.cal_summary.specs.Counted.{IsCounted};
ghost use Rattle.cal_script.specs.Valid.{IsRunnable};

use cal_context::Context;
use cal_run::{Numbers, PlainCounts, count_plain};
use cal_script::Script;
use cal_seeds::Seeds;
use cal_value::OutOfMemory;
use std::alloc::Global;

/// What boards hold and channels take in the run of the threads one after another, counted in a
/// context of its own.
pub(crate) fn count_run(
    alloc: Global,
    seeds: Seeds,
    script: &Script,
) -> Result<PlainCounts, OutOfMemory>
    requires { IsRunnable script.now }
    ensures { IfOk result (IsCounted script.now) }
{
    let mut context = Context::seeded(alloc, seeds);
    let numbers = Numbers::of(alloc, script, &mut context)?;
    count_plain(alloc, script, &numbers, &mut context)
}

/// The lines of all threads, of which a script has few.
pub(crate) fn count_lines(script: &Script) -> u64
    requires { sum_by length script.now.threads ≤ 1048576 }
    ensures { result ≡ sum_by length script.now.threads }
{
    let mut count = 0;
    for thread in script.threads.as_slice() {
        count += thread.len() as u64;
    }
    count
}
