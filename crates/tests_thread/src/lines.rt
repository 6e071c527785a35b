//! One line of a thread, as a caller does it.
ghost use Rattle.std.specs.Prelude.{◌≡◌, ◌+◌, ℕ, List, OnOk, Some, false, true};
ghost use Rattle.std.specs.List.{Contains};
ghost use Rattle.cal_plog.specs.Seats.{ops_of};
ghost use Rattle.cal_process.specs.Replicas.{IsCommon};
ghost use Rattle.cal_run.specs.Lines.{is_process_line, line_at};
ghost use Rattle.cal_run.specs.Steps.{ThreadState};
ghost use Rattle.cal_script.specs.Valid.{IsPlaced};
ghost use Rattle.cal_thread.specs.Threads.{IsThread};
ghost use Rattle.cal_words.specs.declared.op.OpRec as words;
ghost use Rattle.tests_thread.specs.Behind.{IsBehind};

use cal_process::{Common, op_of_line, process_line_law};
use cal_script::{Line, Reply};
use cal_thread::{Thread, line_done_law};
use cal_value::OutOfMemory;
use cal_words::OpRec;
use std::alloc::Global;

/// Does a thread's line of this number, which comes next, and gives the reply. The reading is that
/// of an accepted line which is the thread's own.
pub(crate) fn do_line(
    alloc: Global,
    common: &Common<'_>,
    thread: &mut Thread,
    number: u32,
    line: Line,
    reading: u64,
) -> Result<Option<Reply>, OutOfMemory>
    requires common { IsCommon common.now }
    requires next { (done : ℕ) × IsBehind common.now thread.old done × (number ≡ done + 1) }
    requires line { line_at common.now.script.now thread.old.number number ≡ Some line }
    ensures behind { OnOk result (IsBehind common.now thread.new number) }
    ensures number { OnOk result (thread.new.number ≡ thread.old.number) }
{
    process_line_law();
    match op_of_line(common.script, thread.number, number, line) {
        Some(op) => {
            let reply = do_shared(alloc, common, thread, line, op)?;
            Ok(reply)
        }
        None => {
            let reply = do_own(alloc, common, thread, line, reading)?;
            Ok(reply)
        }
    }
}

/// Places a process line, and takes its operation in.
fn do_shared(
    alloc: Global,
    common: &Common<'_>,
    thread: &mut Thread,
    line: Line,
    op: OpRec,
) -> Result<Option<Reply>, OutOfMemory>
    requires common { IsCommon common.now }
    requires next { (done : ℕ) × (h : List words.OpRec) × (state : ThreadState)
        × IsThread common.now thread.old done h state × (op.line ≡ done + 1) }
    requires shared { is_process_line common.now.script.now line ≡ true }
    requires among { Contains (ops_of common.now.log) op }
    requires own { op.thread ≡ thread.old.number }
    ensures behind { OnOk result (IsBehind common.now thread.new op.line) }
    ensures number { OnOk result (thread.new.number ≡ thread.old.number) }
{
    let reply = thread.place(alloc, common, line, op)?;
    thread.take_own(alloc, common)?;
    Ok(reply)
}

/// Looks, where a snapshot is taken, and makes the change of an accepted line.
fn do_own(
    alloc: Global,
    common: &Common<'_>,
    thread: &mut Thread,
    line: Line,
    reading: u64,
) -> Result<Option<Reply>, OutOfMemory>
    requires common { IsCommon common.now }
    requires next { (done : ℕ) × IsBehind common.now thread.old done
        × (line_at common.now.script.now thread.old.number (done + 1) ≡ Some line) }
    requires own { is_process_line common.now.script.now line ≡ false }
    requires placed { IsPlaced common.now.script.now.attributes common.now.script.now.channels
        common.now.script.now.values line }
    ensures behind { OnOk result ((done : ℕ)
        → line_at common.now.script.now thread.old.number (done + 1) ≡ Some line
        → IsBehind common.now thread.old done → IsBehind common.now thread.new (done + 1)) }
    ensures number { OnOk result (thread.new.number ≡ thread.old.number) }
{
    let met = thread.look(alloc, common, line)?;
    change_if(alloc, common, thread, line, reading, met.accepted)?;
    Ok(met.reply)
}

/// Makes the change of a line, if it is accepted.
fn change_if(
    alloc: Global,
    common: &Common<'_>,
    thread: &mut Thread,
    line: Line,
    reading: u64,
    accepted: bool,
) -> Result<(), OutOfMemory>
    requires common { IsCommon common.now }
    requires next { (done : ℕ) × IsBehind common.now thread.old done
        × (line_at common.now.script.now thread.old.number (done + 1) ≡ Some line) }
    requires own { is_process_line common.now.script.now line ≡ false }
    requires placed { IsPlaced common.now.script.now.attributes common.now.script.now.channels
        common.now.script.now.values line }
    ensures behind { OnOk result ((done : ℕ)
        → line_at common.now.script.now thread.old.number (done + 1) ≡ Some line
        → IsBehind common.now thread.old done → IsBehind common.now thread.new (done + 1)) }
    ensures number { OnOk result (thread.new.number ≡ thread.old.number) }
{
    line_done_law();
    if accepted {
        thread.change(alloc, common, line, reading)?;
    }
    Ok(())
}
