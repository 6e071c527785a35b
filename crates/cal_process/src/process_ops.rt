ghost use Rattle.std.specs.Prelude.{◌≡◌, ℕ, ◌<◌, ◌≤◌, ◌++◌, List, [], All, length};
ghost use Rattle.std.specs.Prelude.{option_to_list, slice_index_or, IfOk, OnOk, Some};
ghost use Rattle.std.specs.List.{Contains};
ghost use Rattle.cal_process.specs.Operations.{HasAll, IsOpOf, op_of_line};
ghost use Rattle.cal_run.specs.Lines.{line_at};
ghost use Rattle.cal_script.specs.Valid.{IsRunnable};
ghost use Rattle.cal_script.specs.declared.script.Line as lines_of;
ghost use Rattle.cal_words.specs.declared.op.OpRec as words;

use cal_run::{is_process_line, operation_of};
use cal_script::{Line, Script};
use cal_value::{OutOfMemory, Seq};
use cal_words::OpRec;
use std::alloc::Global;

/// The operations of all process lines of a script.
pub(crate) fn process_ops(alloc: Global, script: &Script) -> Result<Seq<OpRec>, OutOfMemory>
    requires runnable { IsRunnable script.now }
    ensures ops { IfOk result (λ ops. All (IsOpOf script.now) ops) }
    ensures all { IfOk result (λ ops. HasAll script.now ops) }
{
    let mut ops = Seq::new(alloc);
    for thread in 0..script.threads.len() {
        let lines = lines_of_thread(script, thread);
        push_ops(script, thread as u32, lines, &mut ops)?;
    }
    Ok(ops)
}

/// Adds those of a thread.
fn push_ops(
    script: &Script,
    thread: u32,
    lines: &[Line],
    ops: &mut Seq<OpRec>,
) -> Result<(), OutOfMemory>
    requires lines { slice_index_or script.now.threads thread [] ≡ lines.now }
    requires few { length lines.now ≤ 1048576 }
    ensures ops { OnOk result (All (IsOpOf script.now) ops.old → All (IsOpOf script.now) ops.new) }
    ensures more { OnOk result ((op : words.OpRec) → Contains ops.old op → Contains ops.new op) }
    ensures all { OnOk result ((number : ℕ) (l : lines_of.Line) (op : words.OpRec)
        → line_at script.now thread number ≡ Some l
        → op_of_line script.now thread number l ≡ Some op → Contains ops.new op) }
{
    for place in 0..lines.len() {
        let line = line_in(lines, place);
        let op = op_of_line(script, thread, place as u32 + 1, line);
        push_op(op, ops)?;
    }
    Ok(())
}

/// The lines of a thread.
fn lines_of_thread(script: &Script, thread: usize) -> &[Line]
    requires { thread < length script.now.threads }
    ensures { (d : List lines_of.Line) → result.now ≡ slice_index_or script.now.threads thread d }
{
    script.threads.as_slice()[thread].as_slice()
}

/// The line at a place.
#[inline(always)]
fn line_in(lines: &[Line], place: usize) -> Line
    requires { place < length lines.now }
    ensures { (d : lines_of.Line) → result ≡ slice_index_or lines.now place d }
{
    lines[place]
}

fn push_op(op: Option<OpRec>, ops: &mut Seq<OpRec>) -> Result<(), OutOfMemory>
    ensures { OnOk result (ops.new ≡ ops.old ++ option_to_list op) }
{
    match op {
        None => Ok(()),
        Some(op) => ops.push(op),
    }
}

/// The operation of a process line, by its thread and its number from 1; no other line has one.
#[inline(always)]
pub fn op_of_line(script: &Script, thread: u32, number: u32, line: Line) -> Option<OpRec>
    ensures { result ≡ op_of_line script.now thread number line }
{
    if !is_process_line(script, line) {
        return None;
    }
    let op = operation_of(line)?;
    Some(OpRec {
        thread,
        line: number,
        code: op.code,
        attr: op.attr,
        value: op.value,
    })
}
