//! How large the run of a generated script is, in six lines.
ghost use Rattle.std.specs.Prelude.{◌≡◌, ◌*◌, ◌≤◌, IfOk};
ghost use Rattle.cal_gen.specs.Generated.{generated};
ghost use Rattle.cal_run.specs.Plain.{plain};
ghost use Rattle.cal_script.specs.Valid.{IsRunnable};
ghost use Rattle.cal_summary.specs.Summaries.{summary_of, summary_text as text_of_summary};
ghost use Rattle.cal_call.specs.Inputs.{IsPrinted};
ghost use Rattle.cal_call.specs.declared.words.Print.TheVariants as print;

use cal_gen::generate_script;
use cal_script::Script;
use cal_seeds::Seeds;
use cal_summary::{summarize, summary_text};
use cal_valid::valid_script_law;
use cal_value::{OutOfMemory, Text};
use std::alloc::Global;
use std::thread::Threads;

/// The six lines of how large the run is that the script of a seed and two sizes and its plain
/// journal give, which are within the limits of scripts. The script's text isn't made.
pub fn summary_lines<R: Threads + Sync>(
    rt: &R,
    alloc: Global,
    seeds: Seeds,
    seed: u32,
    threads: u32,
    lines: u32,
) -> Result<Text, OutOfMemory>
    requires threads { threads ≤ 64 }
    requires lines { threads * lines ≤ 1048576 }
    ensures { IfOk result (IsPrinted print.Summary (generated seed threads lines)) }
{
    valid_script_law();
    match generate_script(alloc, seed, threads, lines) {
        Ok(script) => lines_of(rt, alloc, seeds, &script),
        Err(OutOfMemory) => Err(OutOfMemory),
    }
}

/// The six lines of how large the run of a script's threads one after another is.
fn lines_of<R: Threads + Sync>(
    rt: &R,
    alloc: Global,
    seeds: Seeds,
    script: &Script,
) -> Result<Text, OutOfMemory>
    requires { IsRunnable script.now }
    ensures { IfOk result (λ text.
        text ≡ text_of_summary (summary_of script.now (plain script.now))) }
{
    let summary = summarize(rt, alloc, seeds, script)?;
    let text = summary_text(alloc, &summary)?;
    Ok(text)
}
