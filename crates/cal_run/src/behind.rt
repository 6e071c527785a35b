ghost use Rattle.std.specs.Prelude.{◌≡◌, ℕ, ◌+◌, ◌<◌, ◌≤◌, [], true, ◌&&◌, not, length, IfOk, OnOk};
ghost use Rattle.std.specs.Prelude.{if◌then◌else◌};
ghost use Rattle.cal_board.specs.Blackboard.{nothing_open};
ghost use Rattle.cal_context.specs.Tree.{Grows};
ghost use Rattle.cal_run.specs.Behind.{IsBehind, IsSomeBehind, RunsBehind};
ghost use Rattle.cal_run.specs.Lines.{clock_after, is_process_line};
ghost use Rattle.cal_run.specs.Noting.{before_after};
ghost use Rattle.cal_run.specs.Numbers.{AreNumbered};
ghost use Rattle.cal_run.specs.Plain.{plain_history};
ghost use Rattle.cal_run.specs.Steps.{ThreadState};
ghost use Rattle.cal_run.specs.Timers.{AreTimers};
ghost use Rattle.cal_script.specs.Valid.{IsPlaced, IsRunnable};

use crate::Numbers;
use crate::drafts::Drafts;
use crate::line::{reply_of, run_known, seen_before};
use crate::lines::is_process_line;
use crate::note::note_behind;
use crate::steps::{clock_after, is_accepted};
use crate::thread::Thread;
use crate::timers::{Timers, reading_if};
use cal_context::{Context, Taker};
use cal_script::{Channel, Line, Placed, Reply, Script};
use cal_value::OutOfMemory;
use std::alloc::Global;

/// What is kept of a thread between two lines while it runs behind all lines before it: the thread
/// of a channel, its script clock, how many operations it has seen, and how many stand before it;
/// and which lines of the script take readings.
#[derive(Drop)]
pub(crate) struct Behind {
    pub thread: Thread,
    pub clock: u64,
    pub seen: u64,
    pub before: usize,
    pub timers: Timers,
}

impl Behind {
    /// Before the first line, behind so many operations.
    pub(crate) fn new(alloc: Global, script: &Script, before: usize, timed: bool) -> Self
        ensures board { result.thread.board ≡ nothing_open }
        ensures readings { result.thread.readings ≡ [] }
        ensures process { result.thread.process.board ≡ nothing_open }
        ensures count { result.thread.process.count ≡ 0 }
        ensures previous { result.thread.previous ≡ 0 }
        ensures timed { result.thread.timed ≡ timed }
        ensures clock { result.clock ≡ 0 }
        ensures seen { result.seen ≡ 0 }
        ensures before { result.before ≡ before }
        ensures timers { AreTimers script.now result.timers }
    {
        Behind {
            thread: Thread::new(alloc, 0, timed),
            clock: 0,
            seen: 0,
            before,
            timers: Timers::of(script),
        }
    }

    /// Runs a line: hands what the channel takes of it to a taker, makes the change, and gives the
    /// reply.
    #[inline(always)]
    pub(crate) fn run_line<T: Taker>(
        &mut self,
        alloc: Global,
        script: &Script,
        numbers: &Numbers,
        channel: &Channel,
        history: &[Placed],
        line: Line,
        context: &mut Context,
        drafts: &mut Drafts,
        taker: &mut T,
    ) -> Result<Reply, OutOfMemory>
        requires runnable { IsRunnable script.now }
        requires numbered { AreNumbered context.old script.now numbers.now }
        requires placed { IsPlaced script.now.attributes script.now.channels script.now.values
            line }
        requires history { history.now ≡ plain_history script.now }
        requires behind { IsSomeBehind context.old script.now self.old }
        requires timed { self.old.thread.timed ≡ channel.now.timer }
        requires within { self.old.before ≤ length history.now }
        requires room { is_process_line script.now line ≡ true
            → self.old.before < length history.now }
        ensures runs { IfOk result (λ reply. (state : ThreadState) (previous : ℕ)
            → IsBehind context.old script.now self.old state previous
            → RunsBehind context.new script.now self.old self.new channel.now line reply
            (T.has_taken taker.old context.old) (T.has_taken taker.new context.new)
            state previous) }
        ensures timed { OnOk result (self.new.thread.timed ≡ self.old.thread.timed) }
        ensures before { OnOk result (self.new.before
            ≡ before_after script.now self.old.before line) }
        ensures grows { Grows context.old context.new }
        ensures about { OnOk result (T.about taker.new ≡ T.about taker.old) }
    {
        match line {
            Line::Begin { .. } => self.step(
                alloc, script, numbers, channel, history, line, context, drafts, taker,
            ),
            Line::End { .. } => self.step(
                alloc, script, numbers, channel, history, line, context, drafts, taker,
            ),
            Line::Set { .. } => self.step(
                alloc, script, numbers, channel, history, line, context, drafts, taker,
            ),
            Line::Snapshot => self.step(
                alloc, script, numbers, channel, history, line, context, drafts, taker,
            ),
            Line::Flush { .. } | Line::Tick { .. } => self.step(
                alloc, script, numbers, channel, history, line, context, drafts, taker,
            ),
        }
    }

    /// Runs a line. Each kind of line has its own copy of this, in which much of it falls away.
    #[inline(always)]
    fn step<T: Taker>(
        &mut self,
        alloc: Global,
        script: &Script,
        numbers: &Numbers,
        channel: &Channel,
        history: &[Placed],
        line: Line,
        context: &mut Context,
        drafts: &mut Drafts,
        taker: &mut T,
    ) -> Result<Reply, OutOfMemory>
        requires runnable { IsRunnable script.now }
        requires numbered { AreNumbered context.old script.now numbers.now }
        requires placed { IsPlaced script.now.attributes script.now.channels script.now.values
            line }
        requires history { history.now ≡ plain_history script.now }
        requires behind { IsSomeBehind context.old script.now self.old }
        requires timed { self.old.thread.timed ≡ channel.now.timer }
        requires within { self.old.before ≤ length history.now }
        requires room { is_process_line script.now line ≡ true
            → self.old.before < length history.now }
        ensures runs { IfOk result (λ reply. (state : ThreadState) (previous : ℕ)
            → IsBehind context.old script.now self.old state previous
            → RunsBehind context.new script.now self.old self.new channel.now line reply
            (T.has_taken taker.old context.old) (T.has_taken taker.new context.new)
            state previous) }
        ensures timed { OnOk result (self.new.thread.timed ≡ self.old.thread.timed) }
        ensures before { OnOk result (self.new.before
            ≡ before_after script.now self.old.before line) }
        ensures grows { Grows context.old context.new }
        ensures about { OnOk result (T.about taker.new ≡ T.about taker.old) }
    {
        let shared = is_placed(script, line, history);
        let first = seen_first(shared, self.before, self.thread.process.count);
        self.thread
            .process
            .take_in(alloc, script, numbers, history, first, context)?;
        let reply = reply_of(script, line, shared, &self.thread);
        let accepted = is_accepted(reply);
        let read = self.timers.is_read(script, line, accepted);
        let reading = reading_if(read, self.clock);
        let before = self.before as u64;
        let note = note_behind(script, line, shared, reply, before, self.seen, reading);
        let seen = seen_before(shared, note);
        self.thread
            .process
            .take_in(alloc, script, numbers, history, seen as usize, context)?;
        run_known(
            alloc,
            script,
            numbers,
            channel,
            history,
            line,
            note,
            shared,
            accepted,
            &mut self.thread,
            context,
            drafts,
            taker,
        )?;
        self.seen = note.seen;
        self.clock = clock_behind(shared, accepted, self.clock, line);
        self.before = count_behind(shared, self.before);
        Ok(note.reply)
    }
}

/// Whether a line is a process line, which no line is where the history is empty.
#[inline(always)]
fn is_placed(script: &Script, line: Line, history: &[Placed]) -> bool
    requires { is_process_line script.now line ≡ true → 0 < length history.now }
    ensures { result ≡ is_process_line script.now line }
{
    !history.is_empty() && is_process_line(script, line)
}

/// How much of the history a thread takes in before a line is answered: for a process line, all
/// that stands before it.
#[inline(always)]
fn seen_first(shared: bool, before: usize, count: usize) -> usize
    ensures { result ≡ (if shared then before else count) }
{
    if shared { before } else { count }
}

/// The script clock behind a line.
#[inline(always)]
fn clock_behind(shared: bool, accepted: bool, clock: u64, line: Line) -> u64
    ensures { result ≡ (if accepted && not shared then clock_after clock line else clock) }
{
    if accepted && !shared {
        clock_after(clock, line)
    } else {
        clock
    }
}

/// How many operations stand behind a line.
#[inline(always)]
fn count_behind(shared: bool, before: usize) -> usize
    requires { shared ≡ true → before < 18446744073709551615 }
    ensures { result ≡ (if shared then before + 1 else before) }
{
    if shared { before + 1 } else { before }
}
