//! A worker's next line.
ghost use Rattle.std.specs.Prelude.{◌≡◌, ℕ, ◌+◌, ◌<◌, ◌++◌, ◌∷◌, [], Some, IfOk, OnOk};
ghost use Rattle.std.specs.Prelude.{length, nat_lt, slice_index_or};
ghost use Rattle.cal_replay.specs.Steps.{StepsOver, noted_with};
ghost use Rattle.cal_replay.specs.Workers.{IsShared, IsSomeWorker, lines_of, script_of};
ghost use Rattle.cal_run.specs.Lines.{line_at};
ghost use Rattle.cal_script.specs.Valid.{IsRunnable};
ghost use Rattle.cal_script.specs.declared.script.Line as lines_of_script;

use crate::answer::Answer;
use crate::own_line::run_own;
use crate::shared_line::run_shared;
use crate::{Keeper, Shared, Worker};
use cal_base::{Clock, Gate};
use cal_process::op_of_line;
use cal_script::{Line, LineNote, Script};
use cal_value::OutOfMemory;
use std::alloc::Global;

impl Worker {
    /// Runs the next line and notes it, and answers whether lines remain. It passes the gate first,
    /// of which no clause speaks. Behind an `Err` the worker may not be stepped again.
    pub fn step<K: Clock, G: Gate, F: Keeper>(
        &mut self,
        alloc: Global,
        shared: &Shared<'_>,
        clock: &mut K,
        gate: &G,
        keeper: &mut F,
    ) -> Result<bool, OutOfMemory>
        requires shared { IsShared shared.now }
        requires worker { IsSomeWorker shared.now self.old }
        requires remains { length self.old.note.lines
            < length (lines_of (script_of shared.now) self.old.thread.number) }
        requires keeper { F.thread keeper.old ≡ self.old.thread.number }
        requires ready { (left : ℕ)
            × F.ready (script_of shared.now) keeper.old shared.now.timers.some (left + 1) }
        ensures steps { OnOk result
            (StepsOver shared.now K.given F.shown F.flushed clock.old clock.new keeper.old
            keeper.new self.old self.new) }
        ensures more { IfOk result (λ more. more ≡ nat_lt (length self.new.note.lines)
            (length (lines_of (script_of shared.now) self.old.thread.number))) }
        ensures keeper { OnOk result (F.thread keeper.new ≡ F.thread keeper.old) }
        ensures ready { OnOk result ((left : ℕ)
            → F.ready (script_of shared.now) keeper.old shared.now.timers.some (left + 1)
            → F.ready (script_of shared.now) keeper.new shared.now.timers.some left) }
    {
        let thread = self.thread.number;
        let done = self.note.lines.len();
        let next = next_line(shared.common.script, thread, done);
        gate.pass(thread, next.number);
        self.run_line(alloc, shared, next.line, next.number, clock, keeper)?;
        Ok(next.more)
    }

    /// Runs a line of this number, which is the next, and notes it.
    fn run_line<K: Clock, F: Keeper>(
        &mut self,
        alloc: Global,
        shared: &Shared<'_>,
        line: Line,
        number: u32,
        clock: &mut K,
        keeper: &mut F,
    ) -> Result<(), OutOfMemory>
        requires shared { IsShared shared.now }
        requires worker { IsSomeWorker shared.now self.old }
        requires next { line_at (script_of shared.now) self.old.thread.number number ≡ Some line }
        requires number { number ≡ length self.old.note.lines + 1 }
        requires keeper { F.thread keeper.old ≡ self.old.thread.number }
        requires ready { (left : ℕ)
            × F.ready (script_of shared.now) keeper.old shared.now.timers.some (left + 1) }
        ensures steps { OnOk result
            (StepsOver shared.now K.given F.shown F.flushed clock.old clock.new keeper.old
            keeper.new self.old self.new) }
        ensures keeper { OnOk result (F.thread keeper.new ≡ F.thread keeper.old) }
        ensures ready { OnOk result ((left : ℕ)
            → F.ready (script_of shared.now) keeper.old shared.now.timers.some (left + 1)
            → F.ready (script_of shared.now) keeper.new shared.now.timers.some left) }
    {
        let thread = self.thread.number;
        match op_of_line(shared.common.script, thread, number, line) {
            Some(op) => {
                let answer = run_shared(alloc, shared, &mut self.thread, line, op, clock, keeper)?;
                self.note(answer)?;
                Ok(())
            }
            None => {
                let answer = run_own(alloc, shared, &mut self.thread, line, clock, keeper)?;
                self.note(answer)?;
                Ok(())
            }
        }
    }

    /// Notes what a line was answered, and what was seen by its end.
    fn note(&mut self, answer: Answer) -> Result<(), OutOfMemory>
        ensures noted { OnOk result
            (self.new.note.lines ≡ self.old.note.lines ++ noted_with answer self.old.thread ∷ []) }
        ensures start { OnOk result (self.new.note.start ≡ self.old.note.start) }
        ensures thread { OnOk result (self.new.thread ≡ self.old.thread) }
    {
        let note = LineNote {
            reply: answer.reply,
            seen: self.thread.process.seen,
            reading: answer.reading,
        };
        self.note.lines.push(note)?;
        Ok(())
    }
}

/// The next line of a thread: its number from 1, the line, and whether there are more behind it.
#[derive(Clone, Copy)]
struct Next {
    line: Line,
    number: u32,
    more: bool,
}

/// That of a thread that has done so many.
#[inline(always)]
fn next_line(script: &Script, thread: u32, done: usize) -> Next
    requires runnable { IsRunnable script.now }
    requires remains { done < length (lines_of script.now thread) }
    ensures line { line_at script.now thread (done + 1) ≡ Some result.line }
    ensures number { result.number ≡ done + 1 }
    ensures more { result.more ≡ nat_lt (done + 1) (length (lines_of script.now thread)) }
{
    let lines = thread_lines(script, thread);
    let line = line_in(lines, done);
    Next {
        line,
        number: done as u32 + 1,
        more: done + 1 < lines.len(),
    }
}

/// The lines of a thread.
#[inline(always)]
fn thread_lines(script: &Script, thread: u32) -> &[Line]
    requires { thread < length script.now.threads }
    ensures { result.now ≡ lines_of script.now thread }
{
    script.threads.as_slice()[thread as usize].as_slice()
}

/// The line at a place.
#[inline(always)]
fn line_in(lines: &[Line], place: usize) -> Line
    requires { place < length lines.now }
    ensures { (d : lines_of_script.Line) → result ≡ slice_index_or lines.now place d }
{
    lines[place]
}
