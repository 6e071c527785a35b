//! All lines of a worker, one after another.
ghost use Rattle.std.specs.Prelude.{◌≡◌, ◌-◌, List, length, nat_lt, OnOk};
ghost use Rattle.cal_replay.specs.Steps.{HasRead, RunsAll};
ghost use Rattle.cal_replay.specs.Workers.{IsShared, IsSomeWorker, IsWorker, lines_of, script_of};
ghost use Rattle.cal_words.specs.declared.op.OpRec as words;

use crate::{Keeper, Shared, Worker};
use cal_base::{Clock, Gate};
use cal_script::Script;
use cal_value::OutOfMemory;
use std::alloc::Global;

impl Worker {
    /// Runs all lines that remain. Behind an `Err` the worker may not run on.
    pub fn run<K: Clock, G: Gate, F: Keeper>(
        &mut self,
        alloc: Global,
        shared: &Shared<'_>,
        clock: &mut K,
        gate: &G,
        keeper: &mut F,
    ) -> Result<(), OutOfMemory>
        requires shared { IsShared shared.now }
        requires worker { IsSomeWorker shared.now self.old }
        requires keeper { F.thread keeper.old ≡ self.old.thread.number }
        requires ready { F.ready (script_of shared.now) keeper.old shared.now.timers.some
            (length (lines_of (script_of shared.now) self.old.thread.number)
            - length self.old.note.lines) }
        ensures runs { OnOk result ((h : List words.OpRec) → IsWorker shared.now self.old h
            → RunsAll shared.now self.new h) }
        ensures number { OnOk result (self.new.thread.number ≡ self.old.thread.number) }
        ensures start { OnOk result (self.new.note.start ≡ self.old.note.start) }
        ensures read { OnOk result
            (HasRead shared.now K.given clock.old clock.new self.old self.new) }
        ensures keeper { OnOk result (F.thread keeper.new ≡ F.thread keeper.old) }
    {
        while self.has_more(shared) {
            let _more = self.step(alloc, shared, clock, gate, keeper)?;
        }
        Ok(())
    }

    /// Whether lines remain, so that the worker may be stepped; a thread may have no line at all.
    /// It takes no memory.
    pub fn has_more(&self, shared: &Shared<'_>) -> bool
        ensures { result ≡ nat_lt (length self.now.note.lines)
            (length (lines_of (script_of shared.now) self.now.thread.number)) }
    {
        self.note.lines.len() < line_count(shared.common.script, self.thread.number)
    }
}

/// How many lines a thread has.
#[inline(always)]
fn line_count(script: &Script, thread: u32) -> usize
    ensures { result ≡ length (lines_of script.now thread) }
{
    match script.threads.get(thread as usize) {
        None => 0,
        Some(lines) => lines.len(),
    }
}
