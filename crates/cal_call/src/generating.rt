//! `gen`: the script of a seed and two sizes, or how large its run is.
ghost use Rattle.std.specs.Prelude.{◌≡◌, ◌*◌, ◌≤◌, false, IfOk, Ok};
ghost use Rattle.std.specs.Result.{result_err};
ghost use Rattle.cal_base.specs.Change.{change_of};
ghost use Rattle.cal_gen.specs.Generated.{generated};
ghost use Rattle.cal_call.specs.Causes.{Answers};
ghost use Rattle.cal_call.specs.Faults.{writes};
ghost use Rattle.cal_call.specs.Inputs.{IsPrinted};
ghost use Rattle.cal_call.specs.Refusals.{no_journal};
ghost use Rattle.cal_call.specs.Tasks.{GenTask};

use crate::showing::show;
use crate::summarizing::summary_lines;
use crate::{Fault, Print};
use cal_base::{Sink, Source};
use cal_gen::generate;
use cal_seeds::Seeds;
use cal_value::{OutOfMemory, Text};
use std::alloc::Global;
use std::thread::Threads;

/// Generates the script of a seed and two sizes, which are within the limits of scripts, and writes
/// it or how large its run is. It leaves the input as it is.
pub fn write_generated<R: Threads + Sync, S: Source, W: Sink>(
    rt: &R,
    alloc: Global,
    seeds: Seeds,
    seed: u32,
    threads: u32,
    lines: u32,
    print: Print,
    input: &mut S,
    output: &mut W,
) -> Result<(), Fault>
    requires threads { threads ≤ 64 }
    requires lines { threads * lines ≤ 1048576 }
    ensures answers { Answers (Ok (GenTask seed threads lines print))
        (change_of S.left S.faults input.old input.new)
        (change_of W.written W.faults output.old output.new) no_journal (result_err result) }
    ensures input { input.new ≡ input.old }
    ensures output { writes (result_err result) ≡ false → output.new ≡ output.old }
{
    let _ = input;
    let Ok(text) = printed(rt, alloc, seeds, seed, threads, lines, print) else {
        return Err(Fault::OutOfMemory);
    };
    show(text.as_str(), output)
}

/// What is printed of the script of a seed and two sizes.
fn printed<R: Threads + Sync>(
    rt: &R,
    alloc: Global,
    seeds: Seeds,
    seed: u32,
    threads: u32,
    lines: u32,
    print: Print,
) -> Result<Text, OutOfMemory>
    requires threads { threads ≤ 64 }
    requires lines { threads * lines ≤ 1048576 }
    ensures { IfOk result (IsPrinted print (generated seed threads lines)) }
{
    match print {
        Print::Script => generate(alloc, seed, threads, lines),
        Print::Summary => summary_lines(rt, alloc, seeds, seed, threads, lines),
    }
}
