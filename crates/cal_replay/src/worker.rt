//! A running thread with its notes, between two lines.
ghost use Rattle.std.specs.Prelude.{◌≡◌, []};
ghost use Rattle.cal_replay.specs.Readings.{Asked, off_clock};
ghost use Rattle.cal_replay.specs.Workers.{IsHired, IsShared, IsWorker};
ghost use Rattle.cal_run.specs.Steps.{at_start};
ghost use Rattle.cal_thread.specs.Threads.{IsThread};
ghost use Rattle.cal_replay.specs.declared.shared.Shared as shares;

use crate::Shared;
use crate::reading::read_start;
use cal_base::Clock;
use cal_script::{LineNote, ThreadNote};
use cal_thread::Thread;
use cal_value::Seq;

/// A thread of a run between two lines, and what was noted of it: its start reading, and each line
/// so far.
#[derive(Drop)]
pub struct Worker {
    pub thread: Thread,
    pub note: ThreadNote,
}

impl Worker {
    /// The worker of a thread before its first line, which isn't started. It takes no memory.
    /// `notes` is where its lines are noted, with room for as many as that has without more.
    pub fn new(thread: Thread, notes: Seq<LineNote>) -> Worker
        requires none { notes ≡ [] }
        ensures hired { (shared : shares.Shared) → IsThread shared.common thread 0 [] at_start
            → thread.timed ≡ shared.timers.some → IsHired shared result }
        ensures thread { result.thread ≡ thread }
    {
        Worker {
            thread,
            note: ThreadNote {
                start: None,
                lines: notes,
            },
        }
    }

    /// Takes the start reading, where some channel has the timer: with the script's clock 0, and
    /// with real clocks this one's next reading. It is called once, before the first `step`.
    pub fn start<K: Clock>(&mut self, shared: &Shared<'_>, clock: &mut K)
        requires shared { IsShared shared.now }
        requires worker { IsHired shared.now self.old }
        ensures worker { IsWorker shared.now self.new [] }
        ensures noted { self.new.note.lines ≡ [] }
        ensures thread { self.new.thread ≡ self.old.thread }
        ensures asked { Asked K.given clock.old clock.new
            (off_clock shared.now.real self.new.note.start) }
    {
        self.note.start = read_start(shared, clock);
    }
}
