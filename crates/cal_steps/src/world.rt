//! A world in memory.
ghost use Rattle.std.specs.Prelude.{◌≡◌, ℕ, ◌<◌, ◌≤◌, ◌+◌, Some, length, map, slice_set};
ghost use Rattle.std.specs.Prelude.{IfOk, IfSome, OnErr, OnOk};
ghost use Rattle.cal_events.specs.Effects.{books_with, handed_over, line_ended, merged_of};
ghost use Rattle.cal_events.specs.Effects.{world_by};
ghost use Rattle.cal_events.specs.Worlds.{thread_in};
ghost use Rattle.cal_run.specs.Held.{IsKnown};
ghost use Rattle.cal_script.specs.declared.journal.Journal as journals;
ghost use Rattle.cal_script.specs.declared.script.Script as scripts;
ghost use Rattle.cal_script.specs.Valid.{IsPlaced, IsRunnable};
ghost use Rattle.cal_steps.specs.Behind.{IsSameBut};
ghost use Rattle.cal_world.specs.Progress.{reached_by};
ghost use Rattle.cal_world.specs.declared.event.Event.TheVariants as event;
ghost use Rattle.cal_world.specs.declared.turn.Turn as turn_of;

use crate::noted::NotedThread;
use crate::part::Part;
use crate::reach::Reach;
use cal_script::{Line, Placed, Reply, Script, ThreadNote};
use cal_value::{Entry, OutOfMemory, Seq};
use cal_world::Turn;
use std::alloc::Global;
use std::marker::Model;

/// The history with how far each thread has come, the paths that have a node, what each thread has,
/// and the books of the channels.
#[derive(Drop)]
pub struct World {
    pub(crate) alloc: Global,
    pub(crate) history: Seq<Placed>,
    pub(crate) reached: Vec<Reach>,
    pub(crate) threads: Vec<NotedThread>,
    pub(crate) paths: Seq<Seq<Entry>>,
    pub(crate) books: Vec<Seq<Part>>,
}

impl Model for World {
    ghost use Rattle.cal_events.specs.Worlds.{World as worlds};

    ghost Value = { worlds };

    ghost view = { λ s. record {
      progress = record { history = s.history; threads = s.reached.items };
      paths = s.paths;
      threads = s.threads.items;
      books = s.books.items;
    } };
}

impl World {
    /// The history so far.
    pub fn history(&self) -> &[Placed]
        ensures { result.now ≡ self.now.progress.history }
    {
        self.history.as_slice()
    }

    /// The notes of the lines done, thread by thread.
    pub fn threads(&self) -> Result<Seq<ThreadNote>, OutOfMemory>
        ensures { IfOk result (λ notes. notes ≡ map (λ t. t.note) self.now.threads) }
    {
        let mut notes = Seq::new(self.alloc);
        for thread in self.threads.as_slice() {
            let note = thread.note(self.alloc)?;
            notes.push(note)?;
        }
        Ok(notes)
    }

    /// How many paths have a node.
    pub fn node_count(&self) -> usize
        ensures { result ≡ length self.now.paths }
    {
        self.paths.len()
    }

    /// A process line is placed at the history's end, and its thread has seen all of it.
    pub(crate) fn place(&mut self, thread: u32, line: u32) -> Result<(), OutOfMemory>
        requires within { thread < length self.old.threads }
        requires reached { thread < length self.old.progress.threads }
        requires room { (reached_by self.old.progress thread).events + 1 < 18446744073709551616 }
        ensures ok { OnOk result ((script : scripts.Script) (journal : journals.Journal)
            (x : turn_of.Turn)
            → self.new ≡ world_by script journal self.old x (event.Place thread line)) }
        ensures err { OnErr result (self.new ≡ self.old) }
    {
        self.history.push(Placed { thread, line })?;
        self.reached[thread as usize].move_on();
        let seen = self.history.len() as u64;
        self.threads[thread as usize].see(seen);
        Ok(())
    }

    /// A thread has seen the whole history.
    pub(crate) fn look(&mut self, thread: u32)
        requires within { thread < length self.old.threads }
        requires reached { thread < length self.old.progress.threads }
        requires room { (reached_by self.old.progress thread).events + 1 < 18446744073709551616 }
        ensures { (script : scripts.Script) (journal : journals.Journal) (x : turn_of.Turn)
            (line : ℕ)
            → self.new ≡ world_by script journal self.old x (event.Look thread line) }
    {
        self.reached[thread as usize].move_on();
        let all = self.history.len() as u64;
        self.threads[thread as usize].see(all);
    }

    /// A line that is no flush ends.
    pub(crate) fn own(
        &mut self,
        script: &Script,
        thread: u32,
        turn: Turn,
    ) -> Result<(), OutOfMemory>
        requires within { thread < length self.old.threads }
        requires reached { thread < length self.old.progress.threads }
        requires room { (reached_by self.old.progress thread).lines + 1 < 18446744073709551616 }
        requires runnable { IsRunnable script.now }
        requires placed { IsPlaced script.now.attributes script.now.channels script.now.values
            turn.line }
        requires known { IsKnown script.now (thread_in self.old thread).state.board }
        requires seen { (thread_in self.old thread).seen ≤ length self.old.progress.history }
        requires long { length (thread_in self.old thread).channels
            ≡ length script.now.channels }
        ensures ok { OnOk result ((journal : journals.Journal) (line : ℕ)
            → self.new ≡ world_by script.now journal self.old turn (event.Own thread line)) }
        ensures err { OnErr result (IsSameBut thread self.old self.new) }
    {
        let history = self.history.as_slice();
        self.threads[thread as usize].end_line(self.alloc, script, history, turn)?;
        self.reached[thread as usize].end_line();
        Ok(())
    }

    /// The book of a channel has what a thread kept of it.
    fn merge(&mut self, thread: u32, channel: u32) -> Result<(), OutOfMemory>
        requires within { thread < length self.old.threads }
        requires held { channel < length (thread_in self.old thread).channels }
        requires book { channel < length self.old.books }
        ensures ok { OnOk result (self.new ≡ record self.old {
          threads = slice_set self.old.threads thread
              (handed_over (Some channel) (thread_in self.old thread));
          books = books_with (Some channel) thread (thread_in self.old thread) self.old.books;
        }) }
        ensures err { OnErr result (IsSameBut thread self.old self.new) }
    {
        let snapshots = self.threads[thread as usize].hand_over(self.alloc, channel as usize);
        self.books[channel as usize].push(Part { thread, snapshots })
    }

    /// Where a flush of a channel was merged, its book has what a thread kept.
    fn hand_over(&mut self, thread: u32, merged: Option<u32>) -> Result<(), OutOfMemory>
        requires within { thread < length self.old.threads }
        requires held { IfSome merged
            (λ channel. channel < length (thread_in self.old thread).channels) }
        requires book { IfSome merged (λ channel. channel < length self.old.books) }
        ensures ok { OnOk result (self.new ≡ record self.old {
          threads = slice_set self.old.threads thread
              (handed_over merged (thread_in self.old thread));
          books = books_with merged thread (thread_in self.old thread) self.old.books;
        }) }
        ensures err { OnErr result (IsSameBut thread self.old self.new) }
    {
        match merged {
            None => Ok(()),
            Some(channel) => self.merge(thread, channel),
        }
    }

    /// A line ends, of which nothing else is noted yet.
    fn end_line(&mut self, script: &Script, thread: u32, turn: Turn) -> Result<(), OutOfMemory>
        requires within { thread < length self.old.threads }
        requires runnable { IsRunnable script.now }
        requires placed { IsPlaced script.now.attributes script.now.channels script.now.values
            turn.line }
        requires known { IsKnown script.now (thread_in self.old thread).state.board }
        requires seen { (thread_in self.old thread).seen ≤ length self.old.progress.history }
        requires long { length (thread_in self.old thread).channels
            ≡ length script.now.channels }
        ensures ok { OnOk result (self.new ≡ record self.old {
          threads = slice_set self.old.threads thread (line_ended script.now
              self.old.progress.history turn (thread_in self.old thread));
        }) }
        ensures err { OnErr result (IsSameBut thread self.old self.new) }
    {
        let history = self.history.as_slice();
        self.threads[thread as usize].end_line(self.alloc, script, history, turn)?;
        Ok(())
    }

    /// A flush line ends, and where it was merged, its book has what the thread kept.
    pub(crate) fn flush(
        &mut self,
        script: &Script,
        thread: u32,
        turn: Turn,
    ) -> Result<(), OutOfMemory>
        requires within { thread < length self.old.threads }
        requires reached { thread < length self.old.progress.threads }
        requires room { (reached_by self.old.progress thread).lines + 1 < 18446744073709551616 }
        requires runnable { IsRunnable script.now }
        requires placed { IsPlaced script.now.attributes script.now.channels script.now.values
            turn.line }
        requires known { IsKnown script.now (thread_in self.old thread).state.board }
        requires seen { (thread_in self.old thread).seen ≤ length self.old.progress.history }
        requires long { length (thread_in self.old thread).channels
            ≡ length script.now.channels }
        requires books { length self.old.books ≡ length script.now.channels }
        ensures ok { OnOk result ((journal : journals.Journal) (line : ℕ)
            → self.new ≡ world_by script.now journal self.old turn (event.Flush thread line)) }
        ensures err { OnErr result (IsSameBut thread self.old self.new) }
    {
        self.end_line(script, thread, turn)?;
        self.hand_over(thread, merged_of(turn))?;
        self.reached[thread as usize].end_line();
        Ok(())
    }
}

/// The channel whose flush was merged.
fn merged_of(turn: Turn) -> Option<u32>
    ensures { result ≡ merged_of turn.line turn.note.reply }
{
    match turn.line {
        Line::Flush { channel } => match turn.note.reply {
            Reply::Merged => Some(channel),
            _ => None,
        },
        _ => None,
    }
}
