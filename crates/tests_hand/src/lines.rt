ghost use Rattle.std.specs.Prelude.{◌≡◌, IfOk};
ghost use Rattle.cal_board.specs.Standing.{StandsForSome};
ghost use Rattle.cal_hand.specs.Nodes.{NodeAt};
ghost use Rattle.cal_tree.specs.Seats.{IsTreeSeat};

use cal_board::{AttrRef, BoardReply};
use cal_hand::SharedBoard;
use cal_tree::{Tree, TreeSeat};
use cal_value::{OutOfMemory, Seq, Variant};
use cal_words::{NodeId, OpCode};
use std::alloc::Global;

/// A line with a number as its value, and the reply to it.
pub(crate) type Line = (OpCode, AttrRef, u64, BoardReply);

pub(crate) const FUNCTION: AttrRef = AttrRef {
    number: 0,
    nested: true,
    as_value: false,
};

pub(crate) const LOOP: AttrRef = AttrRef {
    number: 1,
    nested: true,
    as_value: false,
};

/// An attribute in a slot of its own.
pub(crate) fn own(number: u32, as_value: bool) -> AttrRef {
    AttrRef {
        number,
        nested: false,
        as_value,
    }
}

/// What a board replies to a line.
pub(crate) fn reply_to(
    board: &mut SharedBoard,
    tree: &Tree,
    seat: &mut TreeSeat,
    code: OpCode,
    attr: AttrRef,
    value: u64,
) -> BoardReply
    requires seat { IsTreeSeat tree.now seat.old }
    requires stands { StandsForSome (NodeAt tree.now seat.old) board.old }
    ensures seat { IsTreeSeat tree.now seat.new }
    ensures stands { StandsForSome (NodeAt tree.now seat.new) board.new }
{
    match code {
        OpCode::Begin => board.begin(tree, seat, attr, &Variant::Uint(value)),
        OpCode::Set => board.set(tree, seat, attr, &Variant::Uint(value)),
        OpCode::End => board.end(attr),
    }
}

/// Whether a board replies so, and has the nodes of before where it refuses the line.
fn is_right(
    alloc: Global,
    board: &mut SharedBoard,
    tree: &Tree,
    seat: &mut TreeSeat,
    line: Line,
) -> Result<bool, OutOfMemory>
    requires seat { IsTreeSeat tree.now seat.old }
    requires stands { StandsForSome (NodeAt tree.now seat.old) board.old }
    ensures seat { IsTreeSeat tree.now seat.new }
    ensures stands { StandsForSome (NodeAt tree.now seat.new) board.new }
{
    let (code, attr, value, wanted) = line;
    let before = nodes(alloc, board)?;
    let reply = reply_to(board, tree, seat, code, attr, value);
    let after = nodes(alloc, board)?;
    Ok(reply == wanted && (wanted == BoardReply::Done || before == after))
}

fn nodes(alloc: Global, board: &SharedBoard) -> Result<Seq<NodeId>, OutOfMemory> {
    let mut nodes = Seq::new(alloc);
    board.refs(&mut nodes)?;
    Ok(nodes)
}

/// The first of these lines with another reply.
pub(crate) fn wrong_line(
    alloc: Global,
    board: &mut SharedBoard,
    tree: &Tree,
    seat: &mut TreeSeat,
    lines: &[Line],
) -> Result<Option<usize>, OutOfMemory>
    requires seat { IsTreeSeat tree.now seat.old }
    requires stands { StandsForSome (NodeAt tree.now seat.old) board.old }
{
    for row in 0..lines.len() {
        if !is_right(alloc, board, tree, seat, lines[row])? {
            return Ok(Some(row));
        }
    }
    Ok(None)
}
