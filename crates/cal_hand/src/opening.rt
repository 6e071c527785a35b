ghost use Rattle.std.specs.Prelude.{◌≡◌, ◌^◌, ◌<◌, IfOk, OnErr};
ghost use Rattle.cal_board.specs.Standing.{StandsForSome};
ghost use Rattle.cal_hand.specs.Boards.{ByTable};
ghost use Rattle.cal_hand.specs.Hands.{GrowsHand};
ghost use Rattle.cal_hand.specs.Nodes.{NodeAt, PublishedAtMost};
ghost use Rattle.cal_hand.specs.Rooms.{HasRoomIn};
ghost use Rattle.cal_once.specs.Seats.{view};
ghost use Rattle.cal_once.specs.Views.{IsLater};
ghost use Rattle.cal_tree.specs.Seats.{IsTreeSeat};
ghost use Rattle.cal_words.specs.Words.{node_length, text_length};
ghost use Rattle.cal_words.specs.declared.op.OpCode.TheVariants as code;

use crate::Hand;
use crate::roomy::RoomyHand;
use cal_board::{AttrRef, Board, BoardReply};
use cal_tree::{Tree, TreeSeat};
use cal_value::{OutOfMemory, Variant};
use cal_words::NodeId;
use std::alloc::Global;

/// Opens a value on a board, with a seat's node for it where its slot is a reference slot. A refusal
/// changes nothing. The tree has room for the node, so memory is asked for by the board alone.
#[inline(always)]
pub fn begin(
    alloc: Global,
    tree: &Tree,
    seat: &mut TreeSeat,
    attr: AttrRef,
    value: &Variant,
    board: &mut Board<NodeId>,
) -> Result<BoardReply, OutOfMemory>
    requires seat { IsTreeSeat tree.now seat.old }
    requires text { text_length value.now < 2 ^ 32 }
    requires room { HasRoomIn tree.now seat.old attr value.now }
    requires stands { StandsForSome (NodeAt tree.now seat.old) board.old }
    ensures seat { IsTreeSeat tree.now seat.new }
    ensures later { IsLater (view seat.old) (view seat.new) }
    ensures one { PublishedAtMost (view seat.old) (view seat.new) (node_length value.now) }
    ensures table { IfOk result (ByTable tree.now seat.old seat.new board.old board.new
        code.Begin attr value.now) }
    ensures err { OnErr result (board.new ≡ board.old) }
    ensures holds { StandsForSome (NodeAt tree.now seat.new) board.new }
{
    let hand = Hand {
        tree,
        seat,
        value,
        full: None,
    };
    begin_with_room(alloc, &mut RoomyHand { hand }, attr, board)
}

/// Puts a value in the place of the slot's last one where that has the attribute, and else opens it,
/// as `begin` does.
#[inline(always)]
pub fn set(
    alloc: Global,
    tree: &Tree,
    seat: &mut TreeSeat,
    attr: AttrRef,
    value: &Variant,
    board: &mut Board<NodeId>,
) -> Result<BoardReply, OutOfMemory>
    requires seat { IsTreeSeat tree.now seat.old }
    requires text { text_length value.now < 2 ^ 32 }
    requires room { HasRoomIn tree.now seat.old attr value.now }
    requires stands { StandsForSome (NodeAt tree.now seat.old) board.old }
    ensures seat { IsTreeSeat tree.now seat.new }
    ensures later { IsLater (view seat.old) (view seat.new) }
    ensures one { PublishedAtMost (view seat.old) (view seat.new) (node_length value.now) }
    ensures table { IfOk result (ByTable tree.now seat.old seat.new board.old board.new
        code.Set attr value.now) }
    ensures err { OnErr result (board.new ≡ board.old) }
    ensures holds { StandsForSome (NodeAt tree.now seat.new) board.new }
{
    let hand = Hand {
        tree,
        seat,
        value,
        full: None,
    };
    set_with_room(alloc, &mut RoomyHand { hand }, attr, board)
}

/// Opens the value of a hand with room on a board.
fn begin_with_room(
    alloc: Global,
    roomy: &mut RoomyHand<'_>,
    attr: AttrRef,
    board: &mut Board<NodeId>,
) -> Result<BoardReply, OutOfMemory>
    requires seat { IsTreeSeat roomy.old.hand.tree.now roomy.old.hand.seat.now }
    requires text { text_length roomy.old.hand.value.now < 2 ^ 32 }
    requires room { HasRoomIn roomy.old.hand.tree.now roomy.old.hand.seat.now attr
        roomy.old.hand.value.now }
    requires stands { StandsForSome (NodeAt roomy.old.hand.tree.now roomy.old.hand.seat.now)
        board.old }
    ensures grows { GrowsHand roomy.old.hand roomy.new.hand }
    ensures table { IfOk result (ByTable roomy.old.hand.tree.now roomy.old.hand.seat.now
        roomy.new.hand.seat.now board.old board.new code.Begin attr roomy.old.hand.value.now) }
    ensures err { OnErr result (board.new ≡ board.old) }
    ensures holds { StandsForSome (NodeAt roomy.old.hand.tree.now roomy.new.hand.seat.now)
        board.new }
{
    board.begin(alloc, roomy, attr, ())
}

/// Puts the value of a hand with room in the place of the slot's last one, or opens it.
fn set_with_room(
    alloc: Global,
    roomy: &mut RoomyHand<'_>,
    attr: AttrRef,
    board: &mut Board<NodeId>,
) -> Result<BoardReply, OutOfMemory>
    requires seat { IsTreeSeat roomy.old.hand.tree.now roomy.old.hand.seat.now }
    requires text { text_length roomy.old.hand.value.now < 2 ^ 32 }
    requires room { HasRoomIn roomy.old.hand.tree.now roomy.old.hand.seat.now attr
        roomy.old.hand.value.now }
    requires stands { StandsForSome (NodeAt roomy.old.hand.tree.now roomy.old.hand.seat.now)
        board.old }
    ensures grows { GrowsHand roomy.old.hand roomy.new.hand }
    ensures table { IfOk result (ByTable roomy.old.hand.tree.now roomy.old.hand.seat.now
        roomy.new.hand.seat.now board.old board.new code.Set attr roomy.old.hand.value.now) }
    ensures err { OnErr result (board.new ≡ board.old) }
    ensures holds { StandsForSome (NodeAt roomy.old.hand.tree.now roomy.new.hand.seat.now)
        board.new }
{
    board.set(alloc, roomy, attr, ())
}
