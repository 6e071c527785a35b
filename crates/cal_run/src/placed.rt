ghost use Rattle.std.specs.Prelude.{◌≡◌, ◌+◌, ◌<◌, length, OnOk};
ghost use Rattle.cal_board.specs.Blackboard.{nothing_open};
ghost use Rattle.cal_run.specs.History.{board_placed, placed_operation};
ghost use Rattle.cal_run.specs.Noting.{HoldsPlaced, OutlinesSome, OutlinesThen};
ghost use Rattle.cal_script.specs.Valid.{IsRunnable};

use crate::outline::{Nothing, operate_outline};
use crate::process::{placed_at, placed_operation};
use cal_board::Board;
use cal_script::{Placed, Script};
use cal_value::OutOfMemory;
use std::alloc::Global;

/// The outline of the process's board after the first operations of a history.
#[derive(Drop)]
pub(crate) struct PlacedProcess {
    pub board: Board<Nothing>,
    pub count: usize,
}

impl PlacedProcess {
    /// Before the first operation.
    pub(crate) fn new(alloc: Global) -> Self
        ensures board { result.board ≡ nothing_open }
        ensures count { result.count ≡ 0 }
    {
        PlacedProcess {
            board: Board::new(alloc),
            count: 0,
        }
    }

    /// Takes in the next operation.
    pub(crate) fn take_next(
        &mut self,
        alloc: Global,
        script: &Script,
        history: &[Placed],
    ) -> Result<(), OutOfMemory>
        requires runnable { IsRunnable script.now }
        requires process { HoldsPlaced script.now history.now self.old }
        requires more { self.old.count < length history.now }
        ensures process { OnOk result (HoldsPlaced script.now history.now self.new) }
        ensures count { OnOk result (self.new.count ≡ self.old.count + 1) }
    {
        let placed = placed_at(history, self.count);
        outline_placed(alloc, script, placed, &mut self.board)?;
        self.count += 1;
        Ok(())
    }
}

/// Does to an outline what is placed.
fn outline_placed(
    alloc: Global,
    script: &Script,
    placed: Placed,
    board: &mut Board<Nothing>,
) -> Result<(), OutOfMemory>
    requires runnable { IsRunnable script.now }
    requires outlines { OutlinesSome board.old }
    ensures { OnOk result (OutlinesThen board.old board.new
        (λ b. board_placed script.now b (placed_operation script.now placed))) }
{
    match placed_operation(script, placed) {
        None => Ok(()),
        Some(op) => operate_outline(alloc, script, op, board),
    }
}
