ghost use Rattle.std.specs.Prelude.{◌≡◌, ◌^◌, ◌<◌, ◌≤◌, IfOk, IsTrue, OnErr};
ghost use Rattle.cal_board.specs.Standing.{StandsForSome};
ghost use Rattle.cal_hand.specs.Boards.{ByTable, TellsWhy};
ghost use Rattle.cal_hand.specs.Hands.{GrowsHand};
ghost use Rattle.cal_hand.specs.Nodes.{IsPlain, NodeAt};
ghost use Rattle.cal_tree.specs.Seats.{IsTreeSeat};
ghost use Rattle.cal_words.specs.Words.{text_length};
ghost use Rattle.cal_words.specs.declared.op.OpCode.TheVariants as code;

use crate::Hand;
use cal_board::{AttrRef, BoardReply, BoardWithRoom, Room};
use cal_value::OutOfMemory;
use cal_words::NodeId;
use std::alloc::Global;

/// Opens a hand's value on a board.
pub(crate) fn begin_by<R: Room>(
    alloc: Global,
    hand: &mut Hand<'_>,
    attr: AttrRef,
    board: &mut BoardWithRoom<NodeId, R>,
) -> Result<BoardReply, OutOfMemory>
    requires seat { IsTreeSeat hand.old.tree.now hand.old.seat.now }
    requires text { text_length hand.old.value.now < 2 ^ 32 }
    requires stands { StandsForSome (NodeAt hand.old.tree.now hand.old.seat.now) board.old }
    ensures grows { GrowsHand hand.old hand.new }
    ensures table { IfOk result (ByTable hand.old.tree.now hand.old.seat.now hand.new.seat.now
        board.old board.new code.Begin attr hand.old.value.now) }
    ensures err { OnErr result (board.new ≡ board.old) }
    ensures holds { StandsForSome (NodeAt hand.old.tree.now hand.new.seat.now) board.new }
    ensures full { 64 ≤ R.slots → (IsTrue attr.as_value → IsPlain hand.old.value.now)
        → OnErr result (TellsWhy hand.old.tree.now hand.old.seat.now hand.new.seat.now
        board.old board.new code.Begin attr hand.old.value.now hand.new.full) }
{
    board.has_few_slots();
    board.begin(alloc, hand, attr, ())
}

/// Puts a hand's value in the place of the slot's last one where that has the attribute, and else
/// opens it.
pub(crate) fn set_by<R: Room>(
    alloc: Global,
    hand: &mut Hand<'_>,
    attr: AttrRef,
    board: &mut BoardWithRoom<NodeId, R>,
) -> Result<BoardReply, OutOfMemory>
    requires seat { IsTreeSeat hand.old.tree.now hand.old.seat.now }
    requires text { text_length hand.old.value.now < 2 ^ 32 }
    requires stands { StandsForSome (NodeAt hand.old.tree.now hand.old.seat.now) board.old }
    ensures grows { GrowsHand hand.old hand.new }
    ensures table { IfOk result (ByTable hand.old.tree.now hand.old.seat.now hand.new.seat.now
        board.old board.new code.Set attr hand.old.value.now) }
    ensures err { OnErr result (board.new ≡ board.old) }
    ensures holds { StandsForSome (NodeAt hand.old.tree.now hand.new.seat.now) board.new }
    ensures full { 64 ≤ R.slots → (IsTrue attr.as_value → IsPlain hand.old.value.now)
        → OnErr result (TellsWhy hand.old.tree.now hand.old.seat.now hand.new.seat.now
        board.old board.new code.Set attr hand.old.value.now hand.new.full) }
{
    board.has_few_slots();
    board.set(alloc, hand, attr, ())
}
