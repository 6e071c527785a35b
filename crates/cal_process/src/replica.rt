ghost use Rattle.std.specs.Prelude.{◌≡◌, ◌+◌, [], List, IfOk, OnErr, OnOk, if◌then◌else◌};
ghost use Rattle.cal_board.specs.Blackboard.{nothing_open};
ghost use Rattle.cal_once.specs.Seats.{view};
ghost use Rattle.cal_once.specs.Views.{IsLater};
ghost use Rattle.cal_once.specs.declared.seat.RowSeat as seats;
ghost use Rattle.cal_plog.specs.Seats.{IsLogSeat};
ghost use Rattle.cal_process.specs.Replicas.{HasTaken, IsCommon, Takes};
ghost use Rattle.cal_process.specs.Rooms.{UsesSevenEach};
ghost use Rattle.cal_process.specs.Takings.{MayTake};
ghost use Rattle.cal_process.specs.declared.common.Common as commons;
ghost use Rattle.cal_tree.specs.Seats.{IsTreeSeat};
ghost use Rattle.cal_words.specs.declared.op.OpRec as words;
ghost use Rattle.cal_words.specs.declared.sort.NodeSort as sorts;

use crate::{Common, perform};
use cal_board::Board;
use cal_plog::LogSeat;
use cal_run::Operation;
use cal_tree::TreeSeat;
use cal_value::OutOfMemory;
use cal_words::NodeId;
use std::alloc::Global;

/// What a thread knows of the process: how many operations of the history it has seen, and the
/// process's board behind them.
#[derive(Drop)]
pub struct Replica {
    pub log: LogSeat,
    pub board: Board<NodeId>,
    pub seen: u64,
}

impl Replica {
    /// Before the first operation. It takes no memory.
    pub fn new(alloc: Global, log: LogSeat) -> Self
        ensures log { result.log ≡ log }
        ensures board { result.board ≡ nothing_open }
        ensures seen { result.seen ≡ 0 }
        ensures taken { (common : commons.Common) (seat : seats.RowSeat sorts.NodeSort)
            → IsTreeSeat common.tree seat → IsLogSeat common.log log → UsesSevenEach (view log)
            → HasTaken common seat result [] }
    {
        Replica {
            log,
            board: Board::new(alloc),
            seen: 0,
        }
    }

    /// Takes in the next operation of the history, if there is one. An `Err` leaves the board and
    /// what has been seen.
    pub fn take_next(
        &mut self,
        alloc: Global,
        common: &Common<'_>,
        seat: &mut TreeSeat,
    ) -> Result<bool, OutOfMemory>
        requires common { IsCommon common.now }
        requires taken { (h : List words.OpRec) × MayTake common.now seat.old self.old h }
        ensures takes { IfOk result (λ more. (h : List words.OpRec)
            → HasTaken common.now seat.old self.old h
            → Takes common.now seat.old seat.new self.old self.new h more) }
        ensures count { IfOk result (λ more. self.new.seen
            ≡ (if more then self.old.seen + 1 else self.old.seen)) }
        ensures later { OnOk result (IsLater (view seat.old) (view seat.new)) }
        ensures left { OnErr result ((self.new.board ≡ self.old.board)
            × (self.new.seen ≡ self.old.seen)) }
    {
        match common.log.next(&mut self.log, self.seen) {
            None => Ok(false),
            Some(op) => {
                let op = Operation {
                    code: op.code,
                    attr: op.attr,
                    value: op.value,
                };
                perform(alloc, common, seat, op, &mut self.board)?;
                self.seen += 1;
                Ok(true)
            }
        }
    }
}
