ghost use Rattle.std.specs.Prelude.{◌≡◌, ◌<◌, length, slice_index_or, zip, All, OnOk};
ghost use Rattle.cal_context.specs.Taking.{TakesMore};
ghost use Rattle.cal_context.specs.Tree.{Grows};
ghost use Rattle.cal_run.specs.Numbers.{AreNumbered};
ghost use Rattle.cal_run.specs.Runs.{snapshots, taken_by_thread};
ghost use Rattle.cal_run.specs.Seeing.{CanBeRead, SeesInOrder};
ghost use Rattle.cal_script.specs.declared.journal.LineNote as line_notes;
ghost use Rattle.cal_script.specs.declared.script.Line as script_lines;
ghost use Rattle.cal_script.specs.Valid.{IsPlaced, IsRunnable};

use crate::Numbers;
use crate::drafts::Drafts;
use crate::line::run_line;
use crate::lines::lines_to_run;
use crate::thread::Thread;
use cal_context::{Context, Taker};
use cal_script::{Channel, Journal, Line, LineNote, Placed, Script, ThreadNote};
use cal_value::OutOfMemory;
use std::alloc::Global;

/// Hands what a channel takes in a run to a taker: the threads in order, and each thread's in line
/// order. It takes time in the lines, and for each thread in the history. After an `Err` nothing is
/// said of the taker.
pub fn take_channel<T: Taker>(
    alloc: Global,
    script: &Script,
    journal: &Journal,
    channel: &Channel,
    numbers: &Numbers,
    context: &mut Context,
    taker: &mut T,
) -> Result<(), OutOfMemory>
    requires runnable { IsRunnable script.now }
    requires read { CanBeRead script.now journal.now }
    requires numbered { AreNumbered context.old script.now numbers.now }
    ensures taken { OnOk result (TakesMore
        (T.has_taken taker.old context.old)
        (T.has_taken taker.new context.new)
        (snapshots script.now journal.now channel.now)) }
    ensures grows { Grows context.old context.new }
    ensures about { OnOk result (T.about taker.new ≡ T.about taker.old) }
{
    let mut drafts = Drafts::new(alloc);
    let threads = script.threads.as_slice();
    let notes = journal.threads.as_slice();
    let history = journal.ops.as_slice();
    for number in 0..threads.len() {
        let lines = threads[number].as_slice();
        let note = &notes[number];
        take_thread(
            alloc,
            script,
            numbers,
            channel,
            history,
            lines,
            note,
            context,
            &mut drafts,
            taker,
        )?;
    }
    Ok(())
}

/// Hands what a channel takes of a thread to a taker. Lines behind the last on which it may take a
/// snapshot aren't run.
fn take_thread<T: Taker>(
    alloc: Global,
    script: &Script,
    numbers: &Numbers,
    channel: &Channel,
    history: &[Placed],
    lines: &[Line],
    note: &ThreadNote,
    context: &mut Context,
    drafts: &mut Drafts,
    taker: &mut T,
) -> Result<(), OutOfMemory>
    requires runnable { IsRunnable script.now }
    requires numbered { AreNumbered context.old script.now numbers.now }
    requires placed { All (IsPlaced script.now.attributes script.now.channels script.now.values)
        lines.now }
    requires noted { length note.now.lines ≡ length lines.now }
    requires order { SeesInOrder script.now history.now 0 (zip lines.now note.now.lines) }
    ensures taken { OnOk result (TakesMore
        (T.has_taken taker.old context.old)
        (T.has_taken taker.new context.new)
        (taken_by_thread script.now history.now channel.now (lines.now, note.now))) }
    ensures grows { Grows context.old context.new }
    ensures about { OnOk result (T.about taker.new ≡ T.about taker.old) }
{
    let start = note.start.unwrap_or(0);
    let notes = note.lines.as_slice();
    let mut thread = Thread::new(alloc, start, channel.timer);
    for place in 0..lines_to_run(script, channel, lines) {
        let (line, note) = noted_at(lines, notes, place);
        run_line(
            alloc,
            script,
            numbers,
            channel,
            history,
            line,
            note,
            &mut thread,
            context,
            drafts,
            taker,
        )?;
    }
    Ok(())
}

/// The line at a place, with its note.
pub fn noted_at(lines: &[Line], notes: &[LineNote], place: usize) -> (Line, LineNote)
    requires line { place < length lines.now }
    requires note { place < length notes.now }
    ensures line { (d : script_lines.Line) → result.0 ≡ slice_index_or lines.now place d }
    ensures note { (d : line_notes.LineNote) → result.1 ≡ slice_index_or notes.now place d }
{
    (lines[place], notes[place])
}
