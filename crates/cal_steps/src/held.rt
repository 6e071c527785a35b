//! What a channel has of a thread.
ghost use Rattle.std.specs.Prelude.{◌≡◌, [], OnOk};
ghost use Rattle.cal_events.specs.Worlds.{nothing_held};
ghost use Rattle.cal_run.specs.Lines.{operation_of};
ghost use Rattle.cal_steps.specs.Sights.{CanTake, held_with, sight_of};

use crate::Sight;
use crate::snapshot::take_snapshot;
use cal_run::{operation_of, takes};
use cal_script::{Channel, Line, Script};
use cal_value::{OutOfMemory, Rec, Seq, TryCopy};
use std::alloc::Global;
use std::marker::Model;
use std::mem::replace;

/// What a channel has of a thread: the reading of its last snapshot, its trace, and those of its
/// snapshots that aren't in the book.
#[derive(Drop)]
pub(crate) struct Held {
    last: u64,
    taken: Seq<Rec>,
    kept: Seq<Rec>,
}

impl Model for Held {
    ghost use Rattle.cal_events.specs.Worlds.{Held as held};

    ghost Value = { held };

    ghost view = { λ s. record { previous = s.last; trace = s.taken; unflushed = s.kept } };
}

impl Held {
    /// Before the first line, with the start reading.
    pub(crate) fn new(alloc: Global, start: Option<u64>) -> Held
        ensures { result ≡ nothing_held start }
    {
        Held {
            last: start.unwrap_or(0),
            taken: Seq::new(alloc),
            kept: Seq::new(alloc),
        }
    }

    /// The reading of its last snapshot.
    pub(crate) fn previous(&self) -> u64
        ensures { result ≡ self.now.previous }
    {
        self.last
    }

    /// Takes what the channel takes on an accepted line.
    pub(crate) fn take(
        &mut self,
        alloc: Global,
        script: &Script,
        channel: &Channel,
        line: Line,
        sight: &Sight,
    ) -> Result<(), OutOfMemory>
        requires can { CanTake script.now (sight_of sight.now) (operation_of line) }
        requires shown { (sight_of sight.now).previous ≡ self.old.previous }
        ensures { OnOk result (self.new
            ≡ held_with script.now line (sight_of sight.now) (channel.now, self.old)) }
    {
        if !takes(script, channel, line) {
            return Ok(());
        }
        let rec = take_snapshot(alloc, script, channel, operation_of(line), sight)?;
        self.kept.push(rec.copy(alloc)?)?;
        self.taken.push(rec)?;
        if channel.timer {
            self.last = sight.reading;
        }
        Ok(())
    }

    /// What isn't in the book, which then has it.
    pub(crate) fn hand_over(&mut self, alloc: Global) -> Seq<Rec>
        ensures given { result ≡ self.old.unflushed }
        ensures kept { self.new ≡ record self.old { unflushed = [] } }
    {
        replace(&mut self.kept, Seq::new(alloc))
    }

    /// Its trace.
    pub(crate) fn trace(&self) -> &[Rec]
        ensures { result.now ≡ self.now.trace }
    {
        self.taken.as_slice()
    }

    /// What isn't in the book.
    pub(crate) fn unflushed(&self) -> &[Rec]
        ensures { result.now ≡ self.now.unflushed }
    {
        self.kept.as_slice()
    }
}
