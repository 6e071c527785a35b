ghost use Rattle.std.specs.Prelude.{◌≡◌, ◌<◌, List, All, length, slice_index_or};
ghost use Rattle.cal_run.specs.Lawful.{HasShape};
ghost use Rattle.cal_script.specs.declared.journal.ThreadNote as thread_notes;
ghost use Rattle.cal_script.specs.declared.script.Line as script_lines;
ghost use Rattle.cal_script.specs.Valid.{IsPlaced, IsRunnable};

use cal_script::{Journal, Line, LineNote, Script};

/// The lines of a thread, and their notes.
pub(crate) fn noted_lines<'a>(
    script: &'a Script,
    journal: &'a Journal,
    thread: usize,
) -> (&'a [Line], &'a [LineNote])
    requires runnable { IsRunnable script.now }
    requires shape { HasShape script.now journal.now }
    requires within { thread < length script.now.threads }
    ensures lines { (d : List script_lines.Line)
        → result.0.now ≡ slice_index_or script.now.threads thread d }
    ensures notes { (d : thread_notes.ThreadNote)
        → result.1.now ≡ (slice_index_or journal.now.threads thread d).lines }
    ensures within { thread < length journal.now.threads }
    ensures noted { length result.1.now ≡ length result.0.now }
    ensures placed { All (IsPlaced script.now.attributes script.now.channels script.now.values)
        result.0.now }
{
    let threads = script.threads.as_slice();
    let notes = journal.threads.as_slice();
    (threads[thread].as_slice(), notes[thread].lines.as_slice())
}
