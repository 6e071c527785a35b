ghost use Rattle.std.specs.Prelude.{◌≡◌, IfOk, OnErr};
ghost use Rattle.cal_board.specs.Standing.{StandsForSome, StandsThen};
ghost use Rattle.cal_hand.specs.Changes.{HasShortText, Operates, changed_board, words_at_most};
ghost use Rattle.cal_hand.specs.Nodes.{NodeAt, PublishedAtMost};
ghost use Rattle.cal_hand.specs.Rooms.{HasRoomToChange};
ghost use Rattle.cal_once.specs.Seats.{view};
ghost use Rattle.cal_once.specs.Views.{IsLater};
ghost use Rattle.cal_tree.specs.Seats.{IsTreeSeat};

use crate::opening::{begin, set};
use cal_board::{AttrRef, Board, BoardReply};
use cal_tree::{Tree, TreeSeat};
use cal_value::{OutOfMemory, Variant};
use cal_words::NodeId;
use std::alloc::Global;

/// What a line does to a board, with the value that it opens.
#[derive(Clone, Copy)]
pub enum Change<'v> {
    Begin(&'v Variant),
    End,
    Set(&'v Variant),
}

/// Does to a board what a line does, which is nothing where the board refuses it. An `Err` leaves
/// the board; the seat may know more.
#[inline(always)]
pub fn operate(
    alloc: Global,
    tree: &Tree,
    seat: &mut TreeSeat,
    attr: AttrRef,
    change: Change<'_>,
    board: &mut Board<NodeId>,
) -> Result<BoardReply, OutOfMemory>
    requires seat { IsTreeSeat tree.now seat.old }
    requires text { HasShortText change }
    requires room { HasRoomToChange tree.now seat.old attr change }
    requires stands { StandsForSome (NodeAt tree.now seat.old) board.old }
    ensures seat { IsTreeSeat tree.now seat.new }
    ensures later { IsLater (view seat.old) (view seat.new) }
    ensures one { PublishedAtMost (view seat.old) (view seat.new) (words_at_most change.entry) }
    ensures operates { IfOk result (Operates tree.now seat.old seat.new board.old board.new
        attr change.entry) }
    ensures stands { IfOk result (λ _. StandsThen (NodeAt tree.now seat.old)
        (NodeAt tree.now seat.new) board.old board.new (λ b. changed_board b attr change.entry)) }
    ensures err { OnErr result (board.new ≡ board.old) }
    ensures holds { StandsForSome (NodeAt tree.now seat.new) board.new }
{
    match change {
        Change::Begin(value) => begin(alloc, tree, seat, attr, value, board),
        Change::End => Ok(board.end(attr)),
        Change::Set(value) => set(alloc, tree, seat, attr, value, board),
    }
}
