ghost use Rattle.std.specs.Prelude.{◌≡◌, ◌≤◌, ◌-◌, ◌&&◌, not, if◌then◌else◌, IfOk, OnOk};
ghost use Rattle.cal_board.specs.Blackboard.{nothing_open};
ghost use Rattle.cal_context.specs.Tree.{Grows};
ghost use Rattle.cal_run.specs.Adding.{MayHavePlaces};
ghost use Rattle.cal_lawful.specs.Checking.{IsWatched, found_of, found_on};
ghost use Rattle.cal_run.specs.Held.{HoldsSome, HoldsThen};
ghost use Rattle.cal_run.specs.History.{board_placed};
ghost use Rattle.cal_run.specs.Lines.{clock_after, operation_of};
ghost use Rattle.cal_run.specs.Numbers.{AreNumbered};
ghost use Rattle.cal_run.specs.Seeing.{MaySee};
ghost use Rattle.cal_run.specs.Steps.{ThreadState, is_accepted, state_after};
ghost use Rattle.cal_script.specs.Valid.{IsPlaced, IsRunnable};

use crate::found::{Found, found_on};
use cal_board::Board;
use cal_context::{Context, NodeNumber};
use cal_run::{Numbers, Process, clock_after, is_accepted, is_process_line, operate, operation_of};
use cal_script::{Line, LineNote, Placed, Reply, Script};
use cal_value::OutOfMemory;
use std::alloc::Global;

/// A thread between two lines, as far as its replies need it: its board, the process's board as it
/// has seen it, and its script clock.
#[derive(Drop)]
pub(crate) struct Watch {
    pub board: Board<NodeNumber>,
    pub process: Process,
    pub clock: u64,
}

impl Watch {
    /// Before the first line.
    pub(crate) fn new(alloc: Global) -> Self
        ensures board { result.board ≡ nothing_open }
        ensures process { result.process.board ≡ nothing_open }
        ensures count { result.process.count ≡ 0 }
        ensures clock { result.clock ≡ 0 }
    {
        Watch {
            board: Board::new(alloc),
            process: Process::new(alloc),
            clock: 0,
        }
    }

    /// What a line finds, and the change that it makes.
    pub(crate) fn run_line(
        &mut self,
        alloc: Global,
        script: &Script,
        numbers: &Numbers,
        history: &[Placed],
        line: Line,
        note: LineNote,
        context: &mut Context,
    ) -> Result<Found, OutOfMemory>
        requires runnable { IsRunnable script.now }
        requires numbered { AreNumbered context.old script.now numbers.now }
        requires placed { IsPlaced script.now.attributes script.now.channels script.now.values
            line }
        requires watched { (state : ThreadState)
            × IsWatched context.old script.now history.now self.old state }
        requires may { MaySee script.now history.now self.old.process.count line note }
        ensures found { IfOk result (λ found. (state : ThreadState)
            → IsWatched context.old script.now history.now self.old state
            → found ≡ found_of script.now history.now line note state) }
        ensures kept { OnOk result ((state : ThreadState)
            → IsWatched context.old script.now history.now self.old state
            → IsWatched context.new script.now history.now self.new
            (state_after script.now history.now line note state)) }
        ensures seen { OnOk result (self.new.process.count ≤ note.seen) }
        ensures grows { Grows context.old context.new }
    {
        let shared = is_process_line(script, line);
        let seen = seen_before(shared, note);
        self.process
            .take_in(alloc, script, numbers, history, seen as usize, context)?;
        let found = self.find(script, shared, line);
        if !is_changing(shared, found.reply) {
            return Ok(found);
        }
        self.change(alloc, script, numbers, line, context)?;
        Ok(found)
    }

    /// What a line finds behind what it has seen.
    fn find(&self, script: &Script, shared: bool, line: Line) -> Found
        ensures { result ≡ found_on script.now
            (if shared then self.now.process.board else self.now.board) line self.now.clock }
    {
        if shared {
            found_on(script, &self.process.board, line, self.clock)
        } else {
            found_on(script, &self.board, line, self.clock)
        }
    }

    /// Makes the change of an accepted line of the thread's own.
    fn change(
        &mut self,
        alloc: Global,
        script: &Script,
        numbers: &Numbers,
        line: Line,
        context: &mut Context,
    ) -> Result<(), OutOfMemory>
        requires numbered { AreNumbered context.old script.now numbers.now }
        requires places { MayHavePlaces script.now (operation_of line) }
        requires holds { HoldsSome context.old script.now self.old.board }
        ensures board { OnOk result (HoldsThen context.old context.new script.now
            self.old.board self.new.board (λ b. board_placed script.now b (operation_of line))) }
        ensures process { OnOk result (self.new.process ≡ self.old.process) }
        ensures clock { OnOk result (self.new.clock ≡ clock_after self.old.clock line) }
        ensures grows { Grows context.old context.new }
    {
        self.clock = clock_after(self.clock, line);
        match operation_of(line) {
            None => Ok(()),
            Some(op) => operate(alloc, script, numbers, op, &mut self.board, context),
        }
    }
}

/// How many operations a line has seen before its own.
fn seen_before(shared: bool, note: LineNote) -> u64
    ensures { result ≡ (if shared then note.seen - 1 else note.seen) }
{
    if shared {
        note.seen.saturating_sub(1)
    } else {
        note.seen
    }
}

/// Whether a line changes its thread.
fn is_changing(shared: bool, reply: Option<Reply>) -> bool
    ensures { result ≡ (is_accepted reply && not shared) }
{
    is_accepted(reply) && !shared
}
