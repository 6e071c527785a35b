//! Two threads that place their lines, and end.
ghost use Rattle.std.specs.Prelude.{◌≡◌, ◌+◌, ◌<◌, ℕ, List, OnOk, length, true};
ghost use Rattle.std.specs.List.{Contains};
ghost use Rattle.cal_plog.specs.Seats as history;
ghost use Rattle.cal_process.specs.Replicas.{IsCommon};
ghost use Rattle.cal_run.specs.Lines.{is_process_line};
ghost use Rattle.cal_run.specs.Steps.{ThreadState};
ghost use Rattle.cal_script.specs.Valid.{IsRunnable};
ghost use Rattle.cal_thread.specs.Hiring.{HasHired};
ghost use Rattle.cal_thread.specs.Threads.{IsThread};
ghost use Rattle.cal_words.specs.declared.op.OpRec as words;
ghost use Rattle.tests_thread.specs.Behind.{IsBehind};

use cal_ending::{join_thread, read_history};
use cal_plog::LogSeat;
use cal_process::{Common, op_of_line, process_line_law};
use cal_run::line_at;
use cal_script::{Line, Placed, Script};
use cal_thread::{Thread, line_done_law};
use cal_tree::TreeSeat;
use cal_value::{OutOfMemory, Seq};
use cal_words::OpRec;
use std::alloc::Global;

/// Does a thread's line of this number, which comes next, if it is a process line; else the line
/// does nothing here.
fn do_line(
    alloc: Global,
    common: &Common<'_>,
    thread: &mut Thread,
    number: u32,
) -> Result<(), OutOfMemory>
    requires common { IsCommon common.now }
    requires next { (done : ℕ) × IsBehind common.now thread.old done × (number ≡ done + 1) }
    ensures behind { OnOk result (IsBehind common.now thread.new number) }
    ensures number { OnOk result (thread.new.number ≡ thread.old.number) }
{
    process_line_law();
    line_done_law();
    let placed = Placed {
        thread: thread.number,
        line: number,
    };
    let Some(line) = line_at(common.script, placed) else {
        return Ok(());
    };
    match op_of_line(common.script, thread.number, number, line) {
        None => Ok(()),
        Some(op) => {
            place(alloc, common, thread, line, op)?;
            Ok(())
        }
    }
}

/// Places a process line, and takes its operation in.
fn place(
    alloc: Global,
    common: &Common<'_>,
    thread: &mut Thread,
    line: Line,
    op: OpRec,
) -> Result<(), OutOfMemory>
    requires common { IsCommon common.now }
    requires next { (done : ℕ) × (h : List words.OpRec) × (state : ThreadState)
        × IsThread common.now thread.old done h state × (op.line ≡ done + 1) }
    requires shared { is_process_line common.now.script.now line ≡ true }
    requires among { Contains (history.ops_of common.now.log) op }
    requires own { op.thread ≡ thread.old.number }
    ensures behind { OnOk result (IsBehind common.now thread.new op.line) }
    ensures number { OnOk result (thread.new.number ≡ thread.old.number) }
{
    let _reply = thread.place(alloc, common, line, op)?;
    thread.take_own(alloc, common)?;
    Ok(())
}

/// The first thread does its first line, the second one its own, and the first one its second.
fn do_lines(
    alloc: Global,
    common: &Common<'_>,
    first: &mut Thread,
    second: &mut Thread,
) -> Result<(), OutOfMemory>
    requires common { IsCommon common.now }
    requires first { IsBehind common.now first.old 0 }
    requires second { IsBehind common.now second.old 0 }
    ensures first { OnOk result (IsBehind common.now first.new 2) }
    ensures second { OnOk result (IsBehind common.now second.new 1) }
    ensures numbers { OnOk result ((first.new.number ≡ first.old.number)
        × (second.new.number ≡ second.old.number)) }
{
    do_line(alloc, common, first, 1)?;
    do_line(alloc, common, second, 1)?;
    do_line(alloc, common, first, 2)
}

/// The whole history, once two threads have done their lines and ended.
fn history_of(
    alloc: Global,
    common: &Common<'_>,
    mut first: Thread,
    mut second: Thread,
    tree: &mut TreeSeat,
    log: &mut LogSeat,
) -> Result<Seq<Placed>, OutOfMemory>
    requires common { IsCommon common.now }
    requires hired { HasHired common.now tree.old log.old 2 }
    requires first { IsBehind common.now first 0 × (first.number ≡ 0) }
    requires second { IsBehind common.now second 0 × (second.number ≡ 1) }
{
    do_lines(alloc, common, &mut first, &mut second)?;
    join_thread(common, second, tree, log);
    join_thread(common, first, tree, log);
    let history = read_history(alloc, common, log)?;
    Ok(history)
}

/// The whole history of a script's two threads.
pub(crate) fn history_of_two(alloc: Global, script: &Script) -> Result<Seq<Placed>, OutOfMemory>
    requires runnable { IsRunnable script.now }
    requires two { length script.now.threads ≡ 2 }
{
    let (common, mut tree, mut log) = Common::new(alloc, script)?;
    let first = Thread::hire(alloc, &common, 0, false, &mut tree, &mut log);
    let second = Thread::hire(alloc, &common, 1, false, &mut tree, &mut log);
    let history = history_of(alloc, &common, first, second, &mut tree, &mut log);
    drop(tree);
    drop(log);
    drop(common);
    history
}
