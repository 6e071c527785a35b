ghost use Rattle.std.specs.Prelude.{◌≡◌, ◌<◌, ◌≤◌, List, [], ◌∷◌, ◌++◌, length, IfOk, OnOk};
ghost use Rattle.std.specs.Prelude.{if◌then◌else◌, slice_index_or};
ghost use Rattle.cal_run.specs.Lines.{is_process_line};
ghost use Rattle.cal_run.specs.Plain.{placed_lines, plain_history};
ghost use Rattle.cal_script.specs.declared.script.Line as lines_of;
ghost use Rattle.cal_script.specs.Valid.{IsRunnable};

use crate::lines::is_process_line;
use cal_script::{Line, Placed, Script, has_process_attribute};
use cal_value::{OutOfMemory, Seq};
use std::alloc::Global;

/// All process lines of a script: the threads in order, and each thread's in line order.
pub(crate) fn plain_history(alloc: Global, script: &Script) -> Result<Seq<Placed>, OutOfMemory>
    requires runnable { IsRunnable script.now }
    ensures { IfOk result (λ history. history ≡ plain_history script.now) }
{
    if has_process_attribute(script) {
        place_threads(alloc, script)
    } else {
        Ok(Seq::new(alloc))
    }
}

/// The process lines of all threads, found line by line.
fn place_threads(alloc: Global, script: &Script) -> Result<Seq<Placed>, OutOfMemory>
    requires runnable { IsRunnable script.now }
    ensures { IfOk result (λ history. history ≡ plain_history script.now) }
{
    let mut history = Seq::new(alloc);
    for number in 0..script.threads.len() {
        let lines = lines_of_thread(script, number);
        place_lines(script, number as u32, lines, &mut history)?;
    }
    Ok(history)
}

/// Places the process lines of a thread behind a history.
fn place_lines(
    script: &Script,
    thread: u32,
    lines: &[Line],
    history: &mut Seq<Placed>,
) -> Result<(), OutOfMemory>
    requires few { length lines.now ≤ 1048576 }
    ensures { OnOk result (history.new
        ≡ history.old ++ placed_lines script.now (thread, lines.now)) }
{
    for place in 0..lines.len() {
        let line = line_in(lines, place);
        place_line(script, thread, place as u32 + 1, line, history)?;
    }
    Ok(())
}

/// Places a line of this number behind a history, if it is a process line.
#[inline(always)]
fn place_line(
    script: &Script,
    thread: u32,
    number: u32,
    line: Line,
    history: &mut Seq<Placed>,
) -> Result<(), OutOfMemory>
    ensures { OnOk result (history.new ≡ (if is_process_line script.now line
        then history.old ++ record { thread = thread; line = number } ∷ [] else history.old)) }
{
    if is_process_line(script, line) {
        history.push(Placed {
            thread,
            line: number,
        })
    } else {
        Ok(())
    }
}

/// The lines of a thread.
pub(crate) fn lines_of_thread(script: &Script, thread: usize) -> &[Line]
    requires { thread < length script.now.threads }
    ensures { (d : List lines_of.Line) → result.now ≡ slice_index_or script.now.threads thread d }
{
    script.threads.as_slice()[thread].as_slice()
}

/// The line at a place.
#[inline(always)]
pub(crate) fn line_in(lines: &[Line], place: usize) -> Line
    requires { place < length lines.now }
    ensures { (d : lines_of.Line) → result ≡ slice_index_or lines.now place d }
{
    lines[place]
}
