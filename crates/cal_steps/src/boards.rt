//! What operations do to boards of plain values.
ghost use Rattle.std.specs.Prelude.{◌≡◌, ◌≤◌, length, IfOk, OnOk};
ghost use Rattle.cal_board.specs.Blackboard.{reply_to};
ghost use Rattle.cal_run.specs.Held.{HasPlaces};
ghost use Rattle.cal_run.specs.History.{board_placed, board_with, placed_operation, process_board};
ghost use Rattle.cal_run.specs.Lines.{attr_ref};
ghost use Rattle.cal_run.specs.Steps.{as_reply, reply_to_line};
ghost use Rattle.cal_board.specs.Blackboard.{IsTableReply};
ghost use Rattle.cal_script.specs.Valid.{IsRunnable};

use cal_board::{BoardReply, PathBoard};
use cal_run::{Operation, attr_ref, line_at, operation_of};
use cal_script::{Line, Placed, Reply, Script};
use cal_value::OutOfMemory;
use cal_words::OpCode;
use std::alloc::Global;

/// Does to a board what an operation does, which is nothing where the board refuses it.
pub(crate) fn operate(
    script: &Script,
    op: Operation,
    board: &mut PathBoard,
) -> Result<(), OutOfMemory>
    requires { HasPlaces script.now op }
    ensures { OnOk result (board.new ≡ board_with script.now board.old op) }
{
    let attr = attr_ref(script, op.attr);
    match op.code {
        OpCode::Begin => {
            let _reply = board.begin(attr, script.values.at(op.value as usize))?;
            Ok(())
        }
        OpCode::Set => {
            let _reply = board.set(attr, script.values.at(op.value as usize))?;
            Ok(())
        }
        OpCode::End => {
            let _reply = board.end(attr);
            Ok(())
        }
    }
}

/// The process's board after the first operations of a history.
pub(crate) fn process_board(
    alloc: Global,
    script: &Script,
    history: &[Placed],
    count: usize,
) -> Result<PathBoard, OutOfMemory>
    requires runnable { IsRunnable script.now }
    requires within { count ≤ length history.now }
    ensures { IfOk result (λ board. board ≡ process_board script.now history.now count) }
{
    let mut board = PathBoard::new(alloc);
    for place in 0..count {
        place_on(script, history[place], &mut board)?;
    }
    Ok(board)
}

/// Does to the process's board what is placed.
fn place_on(script: &Script, placed: Placed, board: &mut PathBoard) -> Result<(), OutOfMemory>
    requires runnable { IsRunnable script.now }
    ensures { OnOk result (board.new
        ≡ board_placed script.now board.old (placed_operation script.now placed)) }
{
    match placed_operation(script, placed) {
        None => Ok(()),
        Some(op) => operate(script, op, board),
    }
}

/// The operation that is placed.
fn placed_operation(script: &Script, placed: Placed) -> Option<Operation>
    ensures { result ≡ placed_operation script.now placed }
{
    operation_of(line_at(script, placed)?)
}

/// The reply to a line, by the board that it acts on. That to a flush is none.
pub(crate) fn reply_to_line(script: &Script, line: Line, board: &PathBoard) -> Option<Reply>
    ensures { result ≡ reply_to_line script.now board.now line }
{
    match line {
        Line::Begin { attr, .. } => Some(reply_on(script, OpCode::Begin, attr, board)),
        Line::End { attr } => Some(reply_on(script, OpCode::End, attr, board)),
        Line::Set { attr, .. } => Some(reply_on(script, OpCode::Set, attr, board)),
        Line::Snapshot | Line::Tick { .. } => Some(Reply::Done),
        Line::Flush { .. } => None,
    }
}

fn reply_on(script: &Script, code: OpCode, attr: u32, board: &PathBoard) -> Reply
    ensures { result ≡ as_reply (reply_to board.now code (attr_ref script.now attr)) }
{
    as_reply(board.check(code, attr_ref(script, attr)))
}

fn as_reply(reply: BoardReply) -> Reply
    requires { IsTableReply reply }
    ensures { result ≡ as_reply reply }
{
    match reply {
        BoardReply::Done => Reply::Done,
        BoardReply::Mismatch { top } => Reply::Mismatch { top },
        BoardReply::NotOpen => Reply::NotOpen,
        BoardReply::TreeFull(_) => unreachable!(),
        BoardReply::TooDeep => Reply::TooDeep,
        BoardReply::SlotsFull => Reply::SlotsFull,
    }
}
