//! Trees of 1 to 8 slots with one home and an arena of 4 to 40 words. Where there is no more room, a
//! line is refused by the tree's numbers and leaves the board's nodes; those known before are found
//! again, and there is none beside them.
ghost use Rattle.std.specs.Prelude.{◌≡◌, ◌≤◌};
ghost use Rattle.cal_board.specs.Standing.{StandsForSome};
ghost use Rattle.cal_hand.specs.Nodes.{NodeAt};
ghost use Rattle.cal_tree.specs.Seats.{IsTreeSeat};

use crate::room::{Fate, Room};
use crate::twelve_lines::{Line, do_line, lines};
use cal_board::BoardReply;
use cal_hand::SharedBoard;
use cal_tree::{Tree, TreeFull, TreeSeat};
use cal_value::{OutOfMemory, Seq};
use cal_words::{NodeId, Shape};
use std::alloc::Global;

/// What there should be: the room that is left, and the nodes of the board after each line that was
/// done, one line behind another.
#[derive(Drop)]
struct Wanted {
    room: Room,
    nodes: Seq<NodeId>,
}

/// A size with its first wrong line.
#[derive(Clone, Copy, Debug, PartialEq, Eq)]
struct Wrong {
    slots: u64,
    words: u64,
    line: usize,
}

/// The reply to a line, by what becomes of its node.
fn reply_of(fate: Fate) -> BoardReply {
    match fate {
        Fate::Put => BoardReply::Done,
        Fate::RowsFull => BoardReply::TreeFull(TreeFull::RowsFull),
        Fate::ArenaFull { used, need } => {
            BoardReply::TreeFull(TreeFull::ArenaFull { used, need })
        }
    }
}

/// The nodes of a board.
fn nodes_of(alloc: Global, board: &SharedBoard) -> Result<Seq<NodeId>, OutOfMemory> {
    let mut nodes = Seq::new(alloc);
    board.refs(&mut nodes)?;
    Ok(nodes)
}

/// Does lines on a board, and adds its nodes after each that is done.
fn do_lines(
    alloc: Global,
    tree: &Tree,
    seat: &mut TreeSeat,
    board: &mut SharedBoard,
    lines: &[Line],
    nodes: &mut Seq<NodeId>,
) -> Result<(), OutOfMemory>
    requires seat { IsTreeSeat tree.now seat.old }
    requires stands { StandsForSome (NodeAt tree.now seat.old) board.old }
    ensures seat { IsTreeSeat tree.now seat.new }
    ensures stands { StandsForSome (NodeAt tree.now seat.new) board.new }
{
    for number in 0..lines.len() {
        let reply = do_line(alloc, tree, seat, board, lines[number])?;
        if reply == BoardReply::Done {
            board.refs(nodes)?;
        }
    }
    Ok(())
}

/// Whether lines on a board find the nodes that are known.
fn are_found_again(
    alloc: Global,
    tree: &Tree,
    seat: &mut TreeSeat,
    board: &mut SharedBoard,
    lines: &[Line],
    known: &Seq<NodeId>,
) -> Result<bool, OutOfMemory>
    requires seat { IsTreeSeat tree.now seat.old }
    requires stands { StandsForSome (NodeAt tree.now seat.old) board.old }
    ensures seat { IsTreeSeat tree.now seat.new }
    ensures stands { StandsForSome (NodeAt tree.now seat.new) board.new }
{
    let mut nodes = Seq::new(alloc);
    let done = do_lines(alloc, tree, seat, board, lines, &mut nodes);
    let same = nodes == *known;
    drop(nodes);
    done?;
    Ok(same)
}

/// Whether a board replies to a line so, and has the nodes of before where it refuses it.
fn replies(
    alloc: Global,
    tree: &Tree,
    seat: &mut TreeSeat,
    board: &mut SharedBoard,
    line: Line,
    wanted: BoardReply,
) -> Result<bool, OutOfMemory>
    requires seat { IsTreeSeat tree.now seat.old }
    requires stands { StandsForSome (NodeAt tree.now seat.old) board.old }
    ensures seat { IsTreeSeat tree.now seat.new }
{
    let before = nodes_of(alloc, board)?;
    let reply = do_line(alloc, tree, seat, board, line)?;
    let after = nodes_of(alloc, board)?;
    Ok(reply == wanted && (wanted == BoardReply::Done || before == after))
}

/// Whether a board is right after the lines before one, and to this.
fn is_right_on(
    alloc: Global,
    tree: &Tree,
    seat: &mut TreeSeat,
    board: &mut SharedBoard,
    number: usize,
    wanted: &mut Wanted,
) -> Result<bool, OutOfMemory>
    requires seat { IsTreeSeat tree.now seat.old }
    requires stands { StandsForSome (NodeAt tree.now seat.old) board.old }
    ensures seat { IsTreeSeat tree.now seat.new }
{
    let lines = lines();
    let Some(line) = lines.get(number) else {
        return Ok(false);
    };
    let reply = reply_of(wanted.room.put(line.4));
    let found = are_found_again(alloc, tree, seat, board, &lines[..number], &wanted.nodes)?;
    let right = replies(alloc, tree, seat, board, *line, reply)?;
    if reply == BoardReply::Done {
        board.refs(&mut wanted.nodes)?;
    }
    Ok(found && right)
}

/// Whether a line is right on a new board behind the lines before it, and the tree has grown by the
/// nodes that had room alone.
fn is_right(
    alloc: Global,
    tree: &Tree,
    seat: &mut TreeSeat,
    number: usize,
    wanted: &mut Wanted,
) -> Result<bool, OutOfMemory>
    requires { IsTreeSeat tree.now seat.old }
    ensures { IsTreeSeat tree.now seat.new }
{
    let mut board = SharedBoard::new(alloc)?;
    let right = is_right_on(alloc, tree, seat, &mut board, number, wanted);
    drop(board);
    let count = tree.count_nodes(seat);
    Ok(right? && count == wanted.room.filled)
}

/// The first wrong line of those on a new tree.
fn wrong_line(
    alloc: Global,
    tree: &Tree,
    seat: &mut TreeSeat,
    wanted: &mut Wanted,
) -> Result<Option<usize>, OutOfMemory>
    requires { IsTreeSeat tree.now seat.old }
{
    for number in 0..lines().len() {
        if !is_right(alloc, tree, seat, number, wanted)? {
            return Ok(Some(number));
        }
    }
    Ok(None)
}

/// The same of a tree of this size.
fn wrong_of(alloc: Global, slots: u64, words: u64) -> Result<Option<usize>, OutOfMemory>
    requires slots { (1 ≤ slots) × (slots ≤ 8) }
    requires words { words ≤ 40 }
{
    let shape = Shape {
        slots,
        homes: 1,
        arena: words,
        arenas: 1,
    };
    let mut wanted = Wanted {
        room: Room::new(slots, words),
        nodes: Seq::new(alloc),
    };
    let (tree, mut seat) = Tree::new(alloc, shape)?;
    let wrong = wrong_line(alloc, &tree, &mut seat, &mut wanted);
    drop(seat);
    drop(tree);
    drop(wanted);
    wrong
}

/// The first wrong size of trees of so many slots.
fn wrong_size(alloc: Global, slots: u64) -> Result<Option<Wrong>, OutOfMemory>
    requires { (1 ≤ slots) × (slots ≤ 8) }
{
    for words in 4..41 {
        if let Some(line) = wrong_of(alloc, slots, words)? {
            return Ok(Some(Wrong { slots, words, line }));
        }
    }
    Ok(None)
}

#[test]
fn a_small_tree_keeps_what_it_has_at_each_refusal(rt: HostRuntime) {
    for slots in 1..9 {
        let wrong = wrong_size(rt.alloc(), slots);
        assert_eq!(rt; wrong, Ok(None), "the first wrong size");
    }
}
