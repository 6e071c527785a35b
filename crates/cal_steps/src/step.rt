//! What an event does to a world.
ghost use Rattle.std.specs.Prelude.{◌≡◌, ◌<◌, ◌+◌, length, OnErr, OnOk};
ghost use Rattle.cal_events.specs.Effects.{world_after, world_by};
ghost use Rattle.cal_run.specs.Lawful.{Lawful};
ghost use Rattle.cal_script.specs.Valid.{IsRunnable};
ghost use Rattle.cal_steps.specs.Behind.{IsBehind, IsReady, IsSameBut, MayMakeNode};
ghost use Rattle.cal_world.specs.Progress.{IsNext, reached_by, thread_of};

use crate::World;
use crate::turns::turn_behind;
use cal_script::{Journal, Script};
use cal_value::OutOfMemory;
use cal_world::{Event, Turn};

impl World {
    /// Takes the next event of a thread, at its turn. The script and the journal are those of
    /// `new`, at each step. After an `Err` no further step is taken: the event's thread may have
    /// done a part of its line, and all else is as before.
    pub fn step(
        &mut self,
        script: &Script,
        journal: &Journal,
        event: &Event,
    ) -> Result<(), OutOfMemory>
        requires runnable { IsRunnable script.now }
        requires lawful { Lawful script.now journal.now }
        requires behind { IsBehind script.now journal.now self.old }
        requires next { IsNext script.now journal.now self.old.progress event.now }
        ensures after { OnOk result
            (self.new ≡ world_after script.now journal.now self.old event.now) }
        ensures behind { OnOk result (IsBehind script.now journal.now self.new) }
        ensures err { OnErr result (IsSameBut (thread_of event.now) self.old self.new) }
    {
        has_few_operations(journal);
        let thread = thread_of(*event);
        let done = self.lines_done(thread);
        match turn_behind(script, journal, thread, done) {
            None => Ok(()),
            Some(turn) => self.act(script, journal, *event, turn),
        }
    }

    /// How many lines of a thread are done.
    fn lines_done(&self, thread: u32) -> u64
        requires { thread < length self.now.progress.threads }
        ensures { result ≡ (reached_by self.now.progress thread).lines }
    {
        self.reached[thread as usize].lines()
    }

    /// What an event of a line does.
    fn act(
        &mut self,
        script: &Script,
        journal: &Journal,
        event: Event,
        turn: Turn,
    ) -> Result<(), OutOfMemory>
        requires runnable { IsRunnable script.now }
        requires ready { IsReady script.now self.old turn (thread_of event) }
        requires node { MayMakeNode script.now journal.now self.old turn event }
        ensures ok { OnOk result (self.new ≡ world_by script.now journal.now self.old turn event) }
        ensures err { OnErr result (IsSameBut (thread_of event) self.old self.new) }
    {
        match event {
            Event::Node { thread } => self.node(script, journal, thread, turn),
            Event::Place { thread, line } => self.place(thread, line),
            Event::Look { thread, .. } => {
                self.look(thread);
                Ok(())
            }
            Event::Flush { thread, .. } => self.flush(script, thread, turn),
            Event::Own { thread, .. } => self.own(script, thread, turn),
        }
    }
}

/// A journal's history is shorter than the count of addresses.
fn has_few_operations(journal: &Journal)
    ensures { length journal.now.ops + 4 < 18446744073709551616 }
{
    let _operations = journal.ops.as_slice();
}

/// The thread of an event.
fn thread_of(event: Event) -> u32
    ensures { result ≡ thread_of event }
{
    match event {
        Event::Node { thread }
        | Event::Place { thread, .. }
        | Event::Look { thread, .. }
        | Event::Flush { thread, .. }
        | Event::Own { thread, .. } => thread,
    }
}
