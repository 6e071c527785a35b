//! The lines of a journal, thread by thread.
ghost use Rattle.std.specs.Prelude.{◌≡◌, ◌≤◌, ◌<◌, ◌++◌, List, length, zip, IfOk, OnOk};
ghost use Rattle.std.specs.Prelude.{slice_index_or};
ghost use Rattle.cal_run.specs.Lawful.{HasShape};
ghost use Rattle.cal_script.specs.declared.journal.ThreadNote as thread_notes;
ghost use Rattle.cal_script.specs.declared.script.Line as script_lines;
ghost use Rattle.cal_script.specs.Valid.{IsRunnable};
ghost use Rattle.cal_world.specs.Turns.{turns, turns_from};

use crate::Turn;
use cal_run::noted_at;
use cal_script::{Journal, Line, LineNote, Script};
use cal_value::OutOfMemory;
use std::alloc::Global;

/// The lines of all threads, in order.
pub(crate) fn list_turns(
    alloc: Global,
    script: &Script,
    journal: &Journal,
) -> Result<Vec<Turn>, OutOfMemory>
    requires runnable { IsRunnable script.now }
    requires shape { HasShape script.now journal.now }
    ensures { IfOk result (λ ts. ts.items ≡ turns script.now journal.now) }
{
    let threads = script.threads.as_slice();
    let mut turns = Vec::new(alloc);
    for thread in 0..threads.len() {
        let (lines, notes) = noted_lines(script, journal, thread);
        list_thread(thread as u32, lines, notes, &mut turns)?;
    }
    Ok(turns)
}

/// The lines of a thread, and their notes.
fn noted_lines<'a>(
    script: &'a Script,
    journal: &'a Journal,
    thread: usize,
) -> (&'a [Line], &'a [LineNote])
    requires runnable { IsRunnable script.now }
    requires shape { HasShape script.now journal.now }
    requires within { thread < length script.now.threads }
    ensures lines { (d : List script_lines.Line)
        → result.0.now ≡ slice_index_or script.now.threads thread d }
    ensures notes { (d : thread_notes.ThreadNote)
        → result.1.now ≡ (slice_index_or journal.now.threads thread d).lines }
    ensures noted { length result.1.now ≡ length result.0.now }
    ensures few { length result.0.now ≤ 1048576 }
{
    let threads = script.threads.as_slice();
    let notes = journal.threads.as_slice();
    (threads[thread].as_slice(), notes[thread].lines.as_slice())
}

/// The lines of a thread, behind those that are listed.
fn list_thread(
    thread: u32,
    lines: &[Line],
    notes: &[LineNote],
    turns: &mut Vec<Turn>,
) -> Result<(), OutOfMemory>
    requires few { length lines.now ≤ 1048576 }
    requires noted { length notes.now ≡ length lines.now }
    ensures { OnOk result (turns.new.items
        ≡ turns.old.items ++ turns_from thread 1 0 (zip lines.now notes.now)) }
{
    let mut before = 0;
    for place in 0..lines.len() {
        let (line, note) = noted_at(lines, notes, place);
        turns.push(Turn {
            thread,
            number: place as u32 + 1,
            line,
            note,
            before,
        })?;
        before = note.seen;
    }
    Ok(())
}
