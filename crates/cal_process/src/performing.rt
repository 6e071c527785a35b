ghost use Rattle.std.specs.Prelude.{◌≡◌, ◌+◌, ◌<◌, ◌≤◌, OnErr, OnOk, length};
ghost use Rattle.cal_board.specs.Blackboard.{Blackboard};
ghost use Rattle.cal_hand.specs.Changes.{HasShortText, changed_board, words_at_most};
ghost use Rattle.cal_once.specs.Seats.{view};
ghost use Rattle.cal_once.specs.Views.{IsLater};
ghost use Rattle.cal_process.specs.Boards.{HeldSome, HeldThen};
ghost use Rattle.cal_process.specs.Operations.{MayDo, words_by, words_made};
ghost use Rattle.cal_process.specs.Replicas.{IsCommon};
ghost use Rattle.cal_process.specs.Rooms.{HasRoomToDo};
ghost use Rattle.cal_run.specs.History.{board_with};
ghost use Rattle.cal_run.specs.Lines.{attr_ref, value_of};
ghost use Rattle.cal_tree.specs.Seats.{IsTreeSeat};
ghost use Rattle.cal_value.specs.declared.variant.Variant as variants;

use crate::Common;
use cal_board::Board;
use cal_hand::{Change, operate};
use cal_run::{Operation, attr_ref};
use cal_script::Script;
use cal_tree::TreeSeat;
use cal_value::{OutOfMemory, Variant};
use cal_words::{NodeId, OpCode};
use std::alloc::Global;

/// Does to a board what an operation does, which is nothing where the board refuses it. The tree has
/// room for its node. An `Err` leaves the board; the seat may know more.
#[inline(always)]
pub fn perform(
    alloc: Global,
    common: &Common<'_>,
    seat: &mut TreeSeat,
    op: Operation,
    board: &mut Board<NodeId>,
) -> Result<(), OutOfMemory>
    requires common { IsCommon common.now }
    requires seat { IsTreeSeat common.now.tree seat.old }
    requires room { HasRoomToDo common.now (view seat.old) op }
    requires may { MayDo common.now.script.now op }
    requires held { HeldSome common.now seat.old board.old }
    ensures seat { IsTreeSeat common.now.tree seat.new }
    ensures later { IsLater (view seat.old) (view seat.new) }
    ensures words { OnOk result ((view seat.new).used
        ≤ (view seat.old).used + words_made common.now.script.now op) }
    ensures most { (view seat.new).used
        ≤ (view seat.old).used + words_by op.code (value_of common.now.script.now op) }
    ensures changed { OnOk result (HeldThen common.now seat.old seat.new board.old board.new
        (λ b. board_with common.now.script.now b op)) }
    ensures err { OnErr result (board.new ≡ board.old) }
{
    let attr = attr_ref(common.script, op.attr);
    let change = change_of(common.script, op);
    let _reply = operate(alloc, &common.tree, seat, attr, change, board)?;
    Ok(())
}

/// What an operation does to a board, with the value that it opens.
#[inline(always)]
fn change_of<'s>(script: &'s Script, op: Operation) -> Change<'s>
    requires may { MayDo script.now op }
    ensures changes { (b : Blackboard variants.Variant)
        → changed_board b (attr_ref script.now op.attr) result ≡ board_with script.now b op }
    ensures short { HasShortText result }
    ensures words { words_at_most result ≡ words_by op.code (value_of script.now op) }
{
    match op.code {
        OpCode::Begin => Change::Begin(value_at(script, op)),
        OpCode::End => Change::End,
        OpCode::Set => Change::Set(value_at(script, op)),
    }
}

/// The value that an operation opens.
#[tactic(auto, using(crate::proofs::OperationLemmas::value_there))]
#[inline(always)]
fn value_at<'s>(script: &'s Script, op: Operation) -> &'s Variant
    requires { op.value < length script.now.values }
    ensures { result.now ≡ value_of script.now op }
{
    script.values.at(op.value as usize)
}
