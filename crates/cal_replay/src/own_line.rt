//! A line that is its thread's own.
ghost use Rattle.std.specs.Prelude.{◌≡◌, ℕ, ◌+◌, Some, false, if◌then◌else◌, List, IfOk};
ghost use Rattle.std.specs.Prelude.{OnOk};
ghost use Rattle.cal_channel.specs.SmallNumbers.{HasSaidValues};
ghost use Rattle.cal_once.specs.Seats.{view};
ghost use Rattle.cal_once.specs.Views.{KnowsMore};
ghost use Rattle.cal_process.specs.Operations.{history_of};
ghost use Rattle.cal_process.specs.Replicas.{AddsWords, IsCommon};
ghost use Rattle.cal_replay.specs.Readings.{Asked, off_clock};
ghost use Rattle.cal_replay.specs.Steps.{Runs, Tells, noted_with};
ghost use Rattle.cal_replay.specs.Workers.{IsShared, script_of};
ghost use Rattle.cal_run.specs.Lines.{is_process_line, line_at};
ghost use Rattle.cal_run.specs.Steps.{ThreadState, changed, reading_of};
ghost use Rattle.cal_script.specs.Valid.{IsPlaced};
ghost use Rattle.cal_script.specs.declared.journal.LineNote as notes;
ghost use Rattle.cal_thread.specs.Lines.{words_of_line};
ghost use Rattle.cal_thread.specs.Threads.{IsThread};
ghost use Rattle.cal_words.specs.declared.op.OpRec as words;

use crate::answer::{Answer, reply_or_flush};
use crate::reading::read_line;
use crate::{Keeper, Shared, ShownLine};
use cal_base::Clock;
use cal_process::Common;
use cal_script::Line;
use cal_thread::Thread;
use cal_value::OutOfMemory;
use std::alloc::Global;

/// Runs a line that is the thread's own: it is answered, looks where a channel takes a snapshot, is
/// shown to the channels, flushes if it is a flush, and changes the thread where it is accepted.
pub(crate) fn run_own<K: Clock, F: Keeper>(
    alloc: Global,
    shared: &Shared<'_>,
    thread: &mut Thread,
    line: Line,
    clock: &mut K,
    keeper: &mut F,
) -> Result<Answer, OutOfMemory>
    requires shared { IsShared shared.now }
    requires thread { (done : ℕ) × (h : List words.OpRec) × (state : ThreadState)
        × IsThread shared.now.common thread.old done h state
        × (line_at (script_of shared.now) thread.old.number (done + 1) ≡ Some line)
        × HasSaidValues (script_of shared.now) state.board }
    requires own { is_process_line (script_of shared.now) line ≡ false }
    requires keeper { F.thread keeper.old ≡ thread.old.number }
    requires ready { (left : ℕ)
        × F.ready (script_of shared.now) keeper.old thread.old.timed (left + 1) }
    requires placed { IsPlaced (script_of shared.now).attributes (script_of shared.now).channels
        (script_of shared.now).values line }
    ensures runs { IfOk result (λ answer. (tells : Tells F.shown F.flushed shared.now.common
        keeper.old keeper.new line answer.reply)
        × ((done : ℕ) (h : List words.OpRec) (state : ThreadState)
        → line_at (script_of shared.now) thread.old.number (done + 1) ≡ Some line
        → IsThread shared.now.common thread.old done h state
        → Runs shared.now thread.old tells.at thread.new tells.told line
        (noted_with answer thread.new) done h state)) }
    ensures asked { IfOk result (λ answer.
        Asked K.given clock.old clock.new (off_clock shared.now.real answer.reading)) }
    ensures number { OnOk result (thread.new.number ≡ thread.old.number) }
    ensures timed { OnOk result (thread.new.timed ≡ thread.old.timed) }
    ensures ready { OnOk result ((left : ℕ)
        → F.ready (script_of shared.now) keeper.old thread.old.timed (left + 1)
        → F.ready (script_of shared.now) keeper.new thread.old.timed left) }
    ensures keeper { OnOk result (F.thread keeper.new ≡ F.thread keeper.old) }
{
    let met = thread.look(alloc, &shared.common, line)?;
    let clock_shows = thread.clock;
    let reading = read_line(shared, line, met.reply, clock_shows, clock);
    let shown = ShownLine {
        line,
        accepted: met.accepted,
        reading: reading.unwrap_or(0),
    };
    keeper.show(alloc, &shared.common, thread, shown)?;
    let reply = reply_or_flush(line, met.reply, keeper)?;
    change_if(
        alloc,
        &shared.common,
        thread,
        line,
        met.accepted,
        shown.reading,
    )?;
    Ok(Answer { reply, reading })
}

/// Makes the change of the next line, which has this reading, if it is accepted. The thread then
/// stands behind the line.
#[inline(always)]
fn change_if(
    alloc: Global,
    common: &Common<'_>,
    thread: &mut Thread,
    line: Line,
    accepted: bool,
    reading: u64,
) -> Result<(), OutOfMemory>
    requires common { IsCommon common.now }
    requires thread { (done : ℕ) × (h : List words.OpRec) × (state : ThreadState)
        × IsThread common.now thread.old done h state
        × (line_at common.now.script.now thread.old.number (done + 1) ≡ Some line) }
    requires own { is_process_line common.now.script.now line ≡ false }
    requires placed { IsPlaced common.now.script.now.attributes common.now.script.now.channels
        common.now.script.now.values line }
    ensures changed { OnOk result ((done : ℕ) (h : List words.OpRec) (state : ThreadState)
        (note : notes.LineNote) → reading_of note ≡ reading
        → line_at common.now.script.now thread.old.number (done + 1) ≡ Some line
        → IsThread common.now thread.old done h state
        → IsThread common.now thread.new (done + 1) h (if accepted
        then changed common.now.script.now (history_of h) line note state else state)) }
    ensures process { OnOk result (thread.new.process ≡ thread.old.process) }
    ensures words { OnOk result (AddsWords common.now thread.old.tree thread.new.tree
        (words_of_line common.now.script.now line)) }
    ensures learns { OnOk result (KnowsMore (view thread.old.tree) (view thread.new.tree)) }
    ensures number { OnOk result (thread.new.number ≡ thread.old.number) }
    ensures timed { OnOk result (thread.new.timed ≡ thread.old.timed) }
{
    if accepted {
        thread.change(alloc, common, line, reading)?;
    }
    Ok(())
}
