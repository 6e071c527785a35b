//! How far a thread has come.
ghost use Rattle.std.specs.Prelude.{◌≡◌, ◌+◌, ◌<◌};
ghost use Rattle.cal_world.specs.Progress.{behind};

use std::marker::Model;

/// How many lines of a thread are done, and how many events of the line after these.
#[derive(Drop)]
pub(crate) struct Reach {
    lines: u64,
    events: u64,
}

impl Model for Reach {
    ghost use Rattle.cal_world.specs.Progress.{Reached as reached};

    ghost Value = { reached };

    ghost view = { λ s. record { lines = s.lines; events = s.events } };
}

impl Reach {
    /// Before the first line.
    pub(crate) fn new() -> Reach
        ensures { result ≡ behind 0 }
    {
        Reach {
            lines: 0,
            events: 0,
        }
    }

    /// How many lines are done.
    pub(crate) fn lines(&self) -> u64
        ensures { result ≡ self.now.lines }
    {
        self.lines
    }

    /// How many events of the next line are done.
    pub(crate) fn events(&self) -> u64
        ensures { result ≡ self.now.events }
    {
        self.events
    }

    /// One event more of the line.
    pub(crate) fn move_on(&mut self)
        requires { self.old.events + 1 < 18446744073709551616 }
        ensures { self.new ≡ record { lines = self.old.lines; events = self.old.events + 1 } }
    {
        self.events += 1;
    }

    /// One line more.
    pub(crate) fn end_line(&mut self)
        requires { self.old.lines + 1 < 18446744073709551616 }
        ensures { self.new ≡ behind (self.old.lines + 1) }
    {
        self.lines += 1;
        self.events = 0;
    }
}
