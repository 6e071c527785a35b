//! A thread with the notes of its lines.
ghost use Rattle.std.specs.Prelude.{◌≡◌, ◌≤◌, ◌<◌, ◌++◌, Some, length, IfOk, OnOk};
ghost use Rattle.cal_events.specs.Effects.{handed_over, line_ended};
ghost use Rattle.cal_events.specs.Worlds.{held_by, thread_at_start};
ghost use Rattle.cal_run.specs.Held.{IsKnown};
ghost use Rattle.cal_script.specs.Valid.{IsPlaced, IsRunnable};

use crate::ThreadState;
use crate::rows::push_copies;
use cal_script::{LineNote, Placed, Script, ThreadNote};
use cal_value::{OutOfMemory, Rec, Seq};
use cal_world::Turn;
use std::alloc::Global;
use std::marker::Model;

/// What a thread of a world has.
#[derive(Drop)]
pub(crate) struct NotedThread {
    state: ThreadState,
    note: ThreadNote,
}

impl Model for NotedThread {
    ghost use Rattle.cal_events.specs.Worlds.{ThreadWorld};
    ghost use Rattle.cal_steps.specs.Sights.{thread_world};

    ghost Value = { ThreadWorld };

    ghost view = { λ s. thread_world s.state s.note };
}

impl NotedThread {
    /// Before the first line, with the start reading of a note.
    pub(crate) fn new(
        alloc: Global,
        script: &Script,
        note: &ThreadNote,
    ) -> Result<NotedThread, OutOfMemory>
        ensures { IfOk result (λ thread. thread ≡ thread_at_start script.now note.now) }
    {
        let start = note.start;
        let state = ThreadState::new(alloc, script, start)?;
        let lines = Seq::new(alloc);
        Ok(NotedThread {
            state,
            note: ThreadNote { start, lines },
        })
    }

    /// The thread has seen so many operations.
    pub(crate) fn see(&mut self, seen: u64)
        ensures { self.new ≡ record self.old { seen = seen } }
    {
        self.state.seen = seen;
    }

    /// Ends a line, and notes it.
    pub(crate) fn end_line(
        &mut self,
        alloc: Global,
        script: &Script,
        history: &[Placed],
        turn: Turn,
    ) -> Result<(), OutOfMemory>
        requires runnable { IsRunnable script.now }
        requires placed { IsPlaced script.now.attributes script.now.channels script.now.values
            turn.line }
        requires known { IsKnown script.now self.old.state.board }
        requires within { self.old.seen ≤ length history.now }
        requires long { length self.old.channels ≡ length script.now.channels }
        ensures { OnOk result (self.new ≡ line_ended script.now history.now turn self.old) }
    {
        let note = self.state.end_line(alloc, script, history, turn)?;
        self.note.lines.push(note)
    }

    /// What isn't in the book of a channel, which then has it.
    pub(crate) fn hand_over(&mut self, alloc: Global, channel: usize) -> Seq<Rec>
        requires { channel < length self.old.channels }
        ensures given { result ≡ (held_by self.old channel).unflushed }
        ensures kept { self.new ≡ handed_over (Some channel) self.old }
    {
        self.state.hand_over(alloc, channel)
    }

    /// Adds the trace of a channel. An `Err` may leave some of it.
    pub(crate) fn push_trace(
        &self,
        alloc: Global,
        channel: usize,
        rows: &mut Seq<Rec>,
    ) -> Result<(), OutOfMemory>
        ensures { OnOk result (rows.new ≡ rows.old ++ (held_by self.now channel).trace) }
    {
        match self.state.channels.get(channel) {
            None => Ok(()),
            Some(held) => push_copies(alloc, held.trace(), rows),
        }
    }

    /// Adds what isn't in the book of a channel. An `Err` may leave some of it.
    pub(crate) fn push_kept(
        &self,
        alloc: Global,
        channel: usize,
        taken: &mut Seq<Rec>,
    ) -> Result<(), OutOfMemory>
        ensures { OnOk result (taken.new ≡ taken.old ++ (held_by self.now channel).unflushed) }
    {
        match self.state.channels.get(channel) {
            None => Ok(()),
            Some(held) => push_copies(alloc, held.unflushed(), taken),
        }
    }

    /// The notes of its lines, copied.
    pub(crate) fn note(&self, alloc: Global) -> Result<ThreadNote, OutOfMemory>
        ensures { IfOk result (λ note. note ≡ self.now.note) }
    {
        let lines = copied(alloc, self.note.lines.as_slice())?;
        Ok(ThreadNote {
            start: self.note.start,
            lines,
        })
    }
}

/// The same notes.
fn copied(alloc: Global, notes: &[LineNote]) -> Result<Seq<LineNote>, OutOfMemory>
    ensures { IfOk result (λ copy. copy ≡ notes.now) }
{
    let mut copy = Seq::new(alloc);
    for note in notes {
        copy.push(*note)?;
    }
    Ok(copy)
}
