ghost use Rattle.std.specs.Prelude.{◌≡◌, ◌<◌, ◌≤◌, length, slice_index_or, OnOk};
ghost use Rattle.cal_board.specs.Blackboard.{nothing_open};
ghost use Rattle.cal_context.specs.Tree.{Grows};
ghost use Rattle.cal_run.specs.Held.{HoldsSome, HoldsThen, IsProcess};
ghost use Rattle.cal_run.specs.History.{board_placed, placed_operation};
ghost use Rattle.cal_run.specs.Numbers.{AreNumbered};
ghost use Rattle.cal_script.specs.declared.journal.Placed as places;
ghost use Rattle.cal_script.specs.Valid.{IsRunnable};

use crate::boards::operate;
use crate::lines::line_at;
use crate::{Numbers, Operation, operation_of};
use cal_board::Board;
use cal_context::{Context, NodeNumber};
use cal_script::{Placed, Script};
use cal_value::OutOfMemory;
use std::alloc::Global;

/// The process's board after the first operations of a history, as a thread has taken them in.
#[derive(Drop)]
pub struct Process {
    pub board: Board<NodeNumber>,
    pub count: usize,
}

impl Process {
    /// Before the first operation.
    pub fn new(alloc: Global) -> Self
        ensures board { result.board ≡ nothing_open }
        ensures count { result.count ≡ 0 }
    {
        Process {
            board: Board::new(alloc),
            count: 0,
        }
    }

    /// Takes in the history up to so many operations.
    #[inline(always)]
    pub fn take_in(
        &mut self,
        alloc: Global,
        script: &Script,
        numbers: &Numbers,
        history: &[Placed],
        seen: usize,
        context: &mut Context,
    ) -> Result<(), OutOfMemory>
        requires runnable { IsRunnable script.now }
        requires numbered { AreNumbered context.old script.now numbers.now }
        requires process { IsProcess context.old script.now history.now self.old }
        requires more { self.old.count ≤ seen }
        requires within { seen ≤ length history.now }
        ensures process { OnOk result (IsProcess context.new script.now history.now self.new) }
        ensures seen { OnOk result (self.new.count ≡ seen) }
        ensures grows { Grows context.old context.new }
    {
        if self.count == seen {
            return Ok(());
        }
        self.take_more(alloc, script, numbers, history, seen, context)
    }

    #[inline(never)]
    fn take_more(
        &mut self,
        alloc: Global,
        script: &Script,
        numbers: &Numbers,
        history: &[Placed],
        seen: usize,
        context: &mut Context,
    ) -> Result<(), OutOfMemory>
        requires runnable { IsRunnable script.now }
        requires numbered { AreNumbered context.old script.now numbers.now }
        requires process { IsProcess context.old script.now history.now self.old }
        requires more { self.old.count ≤ seen }
        requires within { seen ≤ length history.now }
        ensures process { OnOk result (IsProcess context.new script.now history.now self.new) }
        ensures seen { OnOk result (self.new.count ≡ seen) }
        ensures grows { Grows context.old context.new }
    {
        for place in self.count..seen {
            let placed = placed_at(history, place);
            place_on(alloc, script, numbers, placed, &mut self.board, context)?;
        }
        self.count = seen;
        Ok(())
    }
}

/// What is placed there.
pub(crate) fn placed_at(history: &[Placed], place: usize) -> Placed
    requires { place < length history.now }
    ensures { (d : places.Placed) → result ≡ slice_index_or history.now place d }
{
    history[place]
}

/// Does to the process's board what is placed.
fn place_on(
    alloc: Global,
    script: &Script,
    numbers: &Numbers,
    placed: Placed,
    board: &mut Board<NodeNumber>,
    context: &mut Context,
) -> Result<(), OutOfMemory>
    requires runnable { IsRunnable script.now }
    requires numbered { AreNumbered context.old script.now numbers.now }
    requires holds { HoldsSome context.old script.now board.old }
    ensures changed { OnOk result (HoldsThen context.old context.new script.now board.old board.new
        (λ b. board_placed script.now b (placed_operation script.now placed))) }
    ensures grows { Grows context.old context.new }
{
    match placed_operation(script, placed) {
        None => Ok(()),
        Some(op) => operate(alloc, script, numbers, op, board, context),
    }
}

/// The operation that is placed.
pub(crate) fn placed_operation(script: &Script, placed: Placed) -> Option<Operation>
    ensures { result ≡ placed_operation script.now placed }
{
    operation_of(line_at(script, placed)?)
}
