ghost use Rattle.std.specs.Prelude.{◌≡◌, IfOk};
ghost use Rattle.cal_run.specs.Plain.{plain};
ghost use Rattle.cal_summary.specs.Counted.{IsCounted, IsMeasured};
ghost use Rattle.cal_summary.specs.Summaries.{summary_of};
ghost use Rattle.cal_script.specs.Valid.{IsRunnable};

use crate::counting::{count_lines, count_run};
use crate::measuring::measure_run;
use cal_run::PlainCounts;
use cal_script::Script;
use cal_seeds::Seeds;
use cal_value::OutOfMemory;
use cal_write::Measure;
use std::alloc::Global;
use std::thread::{Threads, join};

/// How large a run is.
#[derive(Clone, Copy, Debug, PartialEq, Eq)]
pub struct Summary {
    pub threads: u64,
    /// The lines of all threads.
    pub lines: u64,
    /// The nodes of the context tree, which are the different paths that boards hold.
    pub nodes: u64,
    /// The snapshots of all threads and channels.
    pub snapshots: u64,
    /// The records of groups.
    pub groups: u64,
    /// The bytes of the canonical text.
    pub bytes: u64,
}

/// How large the run of the threads one after another is, of whose journal nothing is kept. What
/// channels take and boards hold is counted while the text is measured. Each takes time in the
/// lines, as the writing of the text does, which isn't kept either. What the script chooses is hashed
/// by the seeds.
pub fn summarize<R: Threads + Sync>(
    rt: &R,
    alloc: Global,
    seeds: Seeds,
    script: &Script,
) -> Result<Summary, OutOfMemory>
    requires { IsRunnable script.now }
    ensures { IfOk result (λ summary. summary ≡ summary_of script.now (plain script.now)) }
{
    let (counts, measure) = join(
        rt,
        || -> Result<PlainCounts, OutOfMemory>
            requires { IsRunnable script.now }
            ensures { IfOk result (IsCounted script.entry.now) }
        { count_run(alloc, seeds, script) },
        || -> Result<Measure, OutOfMemory>
            requires { IsRunnable script.now }
            ensures { IfOk result (IsMeasured script.entry.now) }
        { measure_run(alloc, seeds, script) },
    );
    Ok(summary_by(script, counts?, measure?))
}

/// The summary of a run that was counted and measured.
fn summary_by(script: &Script, counts: PlainCounts, measure: Measure) -> Summary
    requires runnable { IsRunnable script.now }
    requires counted { IsCounted script.now counts }
    requires measured { IsMeasured script.now measure }
    ensures { result ≡ summary_of script.now (plain script.now) }
{
    let threads = script.threads.len();
    let lines = count_lines(script);
    let groups = measure.rows - counts.traced;
    Summary {
        threads: threads as u64,
        lines,
        nodes: counts.nodes as u64,
        snapshots: counts.in_all,
        groups,
        bytes: measure.bytes,
    }
}
