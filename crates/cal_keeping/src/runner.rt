//! A worker with its channels.
ghost use Rattle.std.specs.Prelude.{◌≡◌, ◌<◌, ◌++◌, [], List, IfOk, OnOk, length, nat_lt};
ghost use Rattle.cal_keeping.specs.Runners.{IsHiredRunner, IsRunner, IsSomeRunner, RanAll, StepsOn};
ghost use Rattle.cal_keeping.specs.Runners.{SameServices};
ghost use Rattle.cal_replay.specs.Readings.{Asked, off_clock};
ghost use Rattle.cal_replay.specs.Steps.{HasRead};
ghost use Rattle.cal_replay.specs.Workers.{IsShared, lines_of, script_of};
ghost use Rattle.cal_words.specs.declared.op.OpRec as words;

use crate::{Channels, PartHand};
use cal_base::{Clock, Gate};
use cal_replay::{Shared, Worker, shown_at_start_law, shown_lines_law, told_step_law};
use cal_run::Prober;
use cal_value::OutOfMemory;
use std::alloc::Global;

/// A running thread: the worker of its lines, and what it keeps for its channels.
#[derive(Drop)]
pub struct Runner<'a, P, H> {
    pub worker: Worker,
    pub channels: Channels<'a, P, H>,
}

impl<'a, P: Prober, H: PartHand + Drop> Runner<'a, P, H> {
    /// Takes the start reading, where some channel has the timer, as `Worker::start` does, and
    /// keeps it in each channel. It is called once, before the first `step`. It takes no memory,
    /// and time in the channels.
    pub fn start<K: Clock>(&mut self, shared: &Shared<'_>, clock: &mut K)
        requires shared { IsShared shared.now }
        requires hired { IsHiredRunner H.account H.takes shared.now self.old }
        ensures runner { IsRunner H.account H.takes shared.now self.new [] }
        ensures noted { self.new.worker.note.lines ≡ [] }
        ensures thread { self.new.worker.thread ≡ self.old.worker.thread }
        ensures services { SameServices H.stays self.old.channels self.new.channels }
        ensures asked { Asked K.given clock.old clock.new
            (off_clock shared.now.real self.new.worker.note.start) }
    {
        shown_at_start_law();
        self.worker.start(shared, clock);
        let reading = self.worker.note.start.unwrap_or(0);
        self.channels.start(reading);
    }

    /// Runs the next line, when the gate has let it pass, and answers whether lines remain. It
    /// takes time in the channels, and in the operations of the process that it takes in. Behind an
    /// `Err`, which is want of memory, the runner may not be stepped again.
    pub fn step<K: Clock, G: Gate>(
        &mut self,
        alloc: Global,
        shared: &Shared<'_>,
        clock: &mut K,
        gate: &G,
    ) -> Result<bool, OutOfMemory>
        requires shared { IsShared shared.now }
        requires runner { IsSomeRunner H.account H.takes shared.now self.old }
        requires remains { length self.old.worker.note.lines
            < length (lines_of (script_of shared.now) self.old.worker.thread.number) }
        ensures steps { OnOk result (StepsOn H.account H.stays shared.now K.given
            clock.old clock.new self.old self.new) }
        ensures runs { OnOk result ((h : List words.OpRec)
            → IsRunner H.account H.takes shared.now self.old h
            → (ops : List words.OpRec)
            × IsRunner H.account H.takes shared.now self.new (h ++ ops)) }
        ensures more { IfOk result (λ more. more ≡ nat_lt (length self.new.worker.note.lines)
            (length (lines_of (script_of shared.now) self.old.worker.thread.number))) }
    {
        told_step_law();
        shown_lines_law();
        let more = self
            .worker
            .step(alloc, shared, clock, gate, &mut self.channels)?;
        Ok(more)
    }

    /// Runs all lines that remain. Behind an `Err`, which is want of memory, it may not run on.
    pub fn run<K: Clock, G: Gate>(
        &mut self,
        alloc: Global,
        shared: &Shared<'_>,
        clock: &mut K,
        gate: &G,
    ) -> Result<(), OutOfMemory>
        requires shared { IsShared shared.now }
        requires runner { IsSomeRunner H.account H.takes shared.now self.old }
        ensures runs { OnOk result ((h : List words.OpRec)
            → IsRunner H.account H.takes shared.now self.old h
            → RanAll H.account H.takes shared.now self.new h) }
        ensures number { OnOk result
            (self.new.worker.thread.number ≡ self.old.worker.thread.number) }
        ensures services { OnOk result (SameServices H.stays self.old.channels self.new.channels) }
        ensures start { OnOk result
            (self.new.worker.note.start ≡ self.old.worker.note.start) }
        ensures read { OnOk result
            (HasRead shared.now K.given clock.old clock.new self.old.worker self.new.worker) }
    {
        while self.worker.has_more(shared) {
            let _more = self.step(alloc, shared, clock, gate)?;
        }
        Ok(())
    }
}
