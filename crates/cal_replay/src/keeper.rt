//! Whoever keeps the channels of a running thread.
use crate::ShownLine;
use cal_process::Common;
use cal_script::Reply;
use cal_thread::Thread;
use cal_value::OutOfMemory;
use std::alloc::Global;

/// Whoever keeps a thread's channels: they are shown each line, and a flush gives what one holds of
/// the thread's snapshots to its book.
pub trait Keeper {
    ghost use Rattle.std.specs.Prelude.{◌≡◌, ◌+◌, ℕ, Bool, List, IfOk, OnOk};
    ghost use Rattle.cal_notes.specs.Notes.{IsFlushNote};
    ghost use Rattle.cal_process.specs.Replicas.{IsCommon};
    ghost use Rattle.cal_process.specs.declared.common.Common as commons;
    ghost use Rattle.cal_replay.specs.Showing.{IsSaid, OnlyReads};
    ghost use Rattle.cal_replay.specs.declared.showing.ShownLine as shown_lines;
    ghost use Rattle.cal_run.specs.Steps.{ThreadState};
    ghost use Rattle.cal_script.specs.Valid.{IsFlushed, IsPlaced};
    ghost use Rattle.cal_script.specs.declared.journal.Reply as replies;
    ghost use Rattle.cal_script.specs.declared.script.Script as scripts;
    ghost use Rattle.cal_thread.specs.Threads.{HasState};
    ghost use Rattle.cal_thread.specs.declared.thread.Thread as threads;
    ghost use Rattle.cal_words.specs.declared.op.OpRec as words;

    // the number of the thread
    ghost thread: { Self → ℕ };

    // may be shown so many lines more of this script, by a thread that keeps readings or not
    ghost ready: { scripts.Script → Self → Bool → ℕ → Type 0 };

    // what a line does that is shown, by the thread as it is then
    ghost shown: { commons.Common → Self → Self → threads.Thread → shown_lines.ShownLine
        → Type 0 };

    // what a flush of a channel does that is replied to so
    ghost flushed: { Self → Self → ℕ → replies.Reply → Type 0 };

    /// Shows a line to each channel, behind the runner's look and before its change. Of the runner
    /// only its seat at the tree learns. An `Err` is want of memory.
    fn show(
        &mut self,
        alloc: Global,
        common: &Common<'_>,
        runner: &mut Thread,
        line: ShownLine,
    ) -> Result<(), OutOfMemory>
        requires common { IsCommon common.now }
        requires said { IsSaid common.now runner.old }
        requires placed { IsPlaced common.now.script.now.attributes
            common.now.script.now.channels common.now.script.now.values line.line }
        requires ready { (left : ℕ)
            × ready common.now.script.now self.old runner.old.timed (left + 1) }
        ensures shown { OnOk result (shown common.now self.old self.new runner.new line) }
        ensures ready { OnOk result ((left : ℕ)
            → ready common.now.script.now self.old runner.old.timed (left + 1)
            → ready common.now.script.now self.new runner.old.timed left) }
        ensures reads { OnOk result (OnlyReads runner.old runner.new) }
        ensures state { OnOk result ((h : List words.OpRec) (state : ThreadState)
            → HasState common.now runner.old h state → HasState common.now runner.new h state) }
        ensures thread { OnOk result (thread self.new ≡ thread self.old) };

    /// Flushes what a channel holds, by its number in a script for whose lines they are ready and in
    /// which it aggregates. It says whether that was merged, or with which other thread the book was
    /// busy. An `Err` is want of memory.
    fn flush(&mut self, channel: u32) -> Result<Reply, OutOfMemory>
        requires ready { (script : scripts.Script) × (timed : Bool) × (left : ℕ)
            × ready script self.old timed left × IsFlushed script.channels channel }
        ensures reply { IfOk result (IsFlushNote (thread self.old)) }
        ensures flushed { IfOk result (flushed self.old self.new channel) }
        ensures ready { OnOk result ((script : scripts.Script) (timed : Bool) (left : ℕ)
            → ready script self.old timed left → ready script self.new timed left) }
        ensures thread { OnOk result (thread self.new ≡ thread self.old) };
}
