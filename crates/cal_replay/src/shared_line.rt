//! A line that is placed in the history.
ghost use Rattle.std.specs.Prelude.{◌≡◌, ◌+◌, ℕ, true, List, IfOk, OnOk};
ghost use Rattle.std.specs.List.{Contains};
ghost use Rattle.cal_channel.specs.SmallNumbers.{HasSaidValues};
ghost use Rattle.cal_plog.specs.Seats.{ops_of};
ghost use Rattle.cal_replay.specs.Readings.{Asked, off_clock};
ghost use Rattle.cal_replay.specs.Steps.{Runs, Tells, noted_with};
ghost use Rattle.cal_replay.specs.Workers.{IsShared, script_of};
ghost use Rattle.cal_run.specs.Lines.{is_process_line};
ghost use Rattle.cal_run.specs.Steps.{ThreadState};
ghost use Rattle.cal_script.specs.Valid.{IsPlaced};
ghost use Rattle.cal_thread.specs.Threads.{IsThread};
ghost use Rattle.cal_words.specs.declared.op.OpRec as words;

use crate::answer::Answer;
use crate::reading::read_line;
use crate::{Keeper, Shared, ShownLine};
use cal_base::Clock;
use cal_run::is_accepted;
use cal_script::{Line, Reply};
use cal_thread::Thread;
use cal_value::OutOfMemory;
use cal_words::OpRec;
use std::alloc::Global;

/// Runs a process line: it is placed, answered by the process's board before its place, shown to
/// the channels, and taken in.
pub(crate) fn run_shared<K: Clock, F: Keeper>(
    alloc: Global,
    shared: &Shared<'_>,
    thread: &mut Thread,
    line: Line,
    op: OpRec,
    clock: &mut K,
    keeper: &mut F,
) -> Result<Answer, OutOfMemory>
    requires shared { IsShared shared.now }
    requires thread { (done : ℕ) × (h : List words.OpRec) × (state : ThreadState)
        × IsThread shared.now.common thread.old done h state × (op.line ≡ done + 1)
        × HasSaidValues (script_of shared.now) state.board }
    requires shared_line { is_process_line (script_of shared.now) line ≡ true }
    requires among { Contains (ops_of shared.now.common.log) op }
    requires own { op.thread ≡ thread.old.number }
    requires ready { (left : ℕ)
        × F.ready (script_of shared.now) keeper.old thread.old.timed (left + 1) }
    requires placed { IsPlaced (script_of shared.now).attributes (script_of shared.now).channels
        (script_of shared.now).values line }
    ensures runs { IfOk result (λ answer. (tells : Tells F.shown F.flushed shared.now.common
        keeper.old keeper.new line answer.reply)
        × ((done : ℕ) (h : List words.OpRec) (state : ThreadState)
        → IsThread shared.now.common thread.old done h state → op.line ≡ done + 1
        → Runs shared.now thread.old tells.at thread.new tells.told line
        (noted_with answer thread.new) done h state)) }
    ensures asked { IfOk result (λ answer.
        Asked K.given clock.old clock.new (off_clock shared.now.real answer.reading)) }
    ensures number { OnOk result (thread.new.number ≡ thread.old.number) }
    ensures timed { OnOk result (thread.new.timed ≡ thread.old.timed) }
    ensures ready { OnOk result ((left : ℕ)
        → F.ready (script_of shared.now) keeper.old thread.old.timed (left + 1)
        → F.ready (script_of shared.now) keeper.new thread.old.timed left) }
    ensures keeper { OnOk result (F.thread keeper.new ≡ F.thread keeper.old) }
{
    let reply = thread.place(alloc, &shared.common, line, op)?;
    let clock_shows = thread.clock;
    let reading = read_line(shared, line, reply, clock_shows, clock);
    let shown = ShownLine {
        line,
        accepted: is_accepted(reply),
        reading: reading.unwrap_or(0),
    };
    keeper.show(alloc, &shared.common, thread, shown)?;
    thread.take_own(alloc, &shared.common)?;
    let given = reply.unwrap_or(Reply::Merged);
    Ok(Answer {
        reply: given,
        reading,
    })
}
