ghost use Rattle.std.specs.Prelude.{◌≡◌, ◌≤◌};
ghost use Rattle.cal_board.specs.Standing.{StandsForSome};
ghost use Rattle.cal_hand.specs.Nodes.{NodeAt};
ghost use Rattle.cal_once.specs.Layout.{IsShape};
ghost use Rattle.cal_tree.specs.Seats.{IsTreeSeat};

use crate::lines::{FUNCTION, LOOP, Line, own, reply_to, wrong_line};
use cal_board::BoardReply;
use cal_hand::SharedBoard;
use cal_tree::{Tree, TreeFull, TreeSeat};
use cal_value::OutOfMemory;
use cal_words::{OpCode, Shape};
use std::alloc::Global;
use std::process::Abort;

/// How many slots are open before the lines of a test, and how many values of the nested ones.
#[derive(Clone, Copy)]
struct Opened {
    references: u32,
    as_values: u32,
    nested: u32,
}

const NOTHING: Opened = Opened {
    references: 0,
    as_values: 0,
    nested: 0,
};

/// Room for every node of a test.
const LARGE: Shape = Shape {
    slots: 300,
    homes: 299,
    arena: 2000,
    arenas: 1,
};

/// Opens the attributes from 10 on, or from 100 on as value, each in a slot of its own.
fn open_slots(board: &mut SharedBoard, tree: &Tree, seat: &mut TreeSeat, slots: u32, as_value: bool)
    requires seat { IsTreeSeat tree.now seat.old }
    requires few { slots ≤ 64 }
    requires stands { StandsForSome (NodeAt tree.now seat.old) board.old }
    ensures seat { IsTreeSeat tree.now seat.new }
    ensures stands { StandsForSome (NodeAt tree.now seat.new) board.new }
{
    let from = if as_value { 100 } else { 10 };
    for slot in 0..slots {
        let attr = own(from + slot, as_value);
        let _ = reply_to(board, tree, seat, OpCode::Begin, attr, 3);
    }
}

/// Opens so many values of `function`.
fn open_values(board: &mut SharedBoard, tree: &Tree, seat: &mut TreeSeat, values: u32)
    requires seat { IsTreeSeat tree.now seat.old }
    requires stands { StandsForSome (NodeAt tree.now seat.old) board.old }
    ensures seat { IsTreeSeat tree.now seat.new }
    ensures stands { StandsForSome (NodeAt tree.now seat.new) board.new }
{
    for _value in 0..values {
        let _ = reply_to(board, tree, seat, OpCode::Begin, FUNCTION, 3);
    }
}

/// The first wrong line on a new board with so much opened.
fn wrong_on(
    alloc: Global,
    tree: &Tree,
    seat: &mut TreeSeat,
    opened: Opened,
    lines: &[Line],
) -> Result<Option<usize>, OutOfMemory>
    requires seat { IsTreeSeat tree.now seat.old }
    requires few { (opened.references ≤ 64) × (opened.as_values ≤ 64) }
{
    let mut board = SharedBoard::new(alloc)?;
    open_slots(&mut board, tree, seat, opened.references, false);
    open_slots(&mut board, tree, seat, opened.as_values, true);
    open_values(&mut board, tree, seat, opened.nested);
    let wrong = wrong_line(alloc, &mut board, tree, seat, lines);
    drop(board);
    wrong
}

/// The same over a new tree of this shape.
fn wrong_over(
    alloc: Global,
    shape: Shape,
    opened: Opened,
    lines: &[Line],
) -> Result<Option<usize>, OutOfMemory>
    requires shape { IsShape shape }
    requires few { (opened.references ≤ 64) × (opened.as_values ≤ 64) }
{
    let (tree, mut seat) = Tree::new(alloc, shape)?;
    let wrong = wrong_on(alloc, &tree, &mut seat, opened, lines);
    drop(seat);
    drop(tree);
    wrong
}

fn check(rt: &impl Abort, wrong: Result<Option<usize>, OutOfMemory>) {
    assert_eq!(rt; wrong, Ok(None), "the first wrong line");
}

/// Four values of `function` fill four slots, one after another; a fifth has no room.
fn four_and_a_fifth() -> &'static [Line] {
    use BoardReply::{Done, TreeFull as Full};
    use OpCode::{Begin, End, Set};
    &[
        (Begin, FUNCTION, 1, Done),
        (End, FUNCTION, 0, Done),
        (Begin, FUNCTION, 2, Done),
        (End, FUNCTION, 0, Done),
        (Begin, FUNCTION, 3, Done),
        (End, FUNCTION, 0, Done),
        (Begin, FUNCTION, 4, Done),
        (End, FUNCTION, 0, Done),
        (Begin, FUNCTION, 5, Full(TreeFull::RowsFull)),
        // the first node is there still, and has no child
        (Begin, FUNCTION, 1, Done),
        (Begin, FUNCTION, 2, Full(TreeFull::RowsFull)),
        // a `set` makes a node beside the last one's, as does one on an empty slot
        (Set, FUNCTION, 4, Done),
        (Set, FUNCTION, 5, Full(TreeFull::RowsFull)),
    ]
}

#[test]
fn a_tree_of_four_slots_is_told_full(rt: HostRuntime) {
    let shape = Shape {
        slots: 4,
        homes: 4,
        arena: 64,
        arenas: 1,
    };
    let one_home = Shape { homes: 1, ..shape };
    let lines = four_and_a_fifth();
    check(&rt, wrong_over(rt.alloc(), shape, NOTHING, lines));
    check(&rt, wrong_over(rt.alloc(), one_home, NOTHING, lines));
}

#[test]
fn a_full_arena_is_told_with_its_numbers(rt: HostRuntime) {
    use BoardReply::{Done, NotOpen, TreeFull as Full};
    use OpCode::{Begin, End, Set};
    let shape = Shape {
        slots: 9,
        homes: 9,
        arena: 5,
        arenas: 1,
    };
    let full = Full(TreeFull::ArenaFull { used: 5, need: 5 });
    let lines = [
        (Begin, FUNCTION, 1, Done),
        (Begin, FUNCTION, 1, full),
        (Set, FUNCTION, 2, full),
        (Begin, own(7, true), 2, Done),
        (End, LOOP, 0, BoardReply::Mismatch { top: 0 }),
        (End, FUNCTION, 0, Done),
        (Set, LOOP, 1, full),
        (End, FUNCTION, 0, NotOpen),
        (Set, FUNCTION, 1, Done),
    ];
    check(&rt, wrong_over(rt.alloc(), shape, NOTHING, &lines));
}

#[test]
fn the_65th_slot_is_refused(rt: HostRuntime) {
    use BoardReply::{Done, SlotsFull};
    use OpCode::{Begin, End, Set};
    let lines = [
        (Begin, own(99, false), 3, SlotsFull),
        (Set, own(200, true), 3, SlotsFull),
        (Begin, own(20, false), 3, Done),
        (End, own(11, false), 0, Done),
        (Begin, own(200, true), 3, Done),
        (Begin, own(11, false), 3, SlotsFull),
    ];
    let opened = Opened {
        references: 40,
        as_values: 24,
        nested: 0,
    };
    check(&rt, wrong_over(rt.alloc(), LARGE, opened, &lines));
}

#[test]
fn the_129th_value_of_a_slot_is_refused(rt: HostRuntime) {
    use BoardReply::{Done, TooDeep};
    use OpCode::{Begin, Set};
    let lines = [
        (Begin, LOOP, 3, Done),
        (Begin, FUNCTION, 3, TooDeep),
        (Set, FUNCTION, 3, TooDeep),
        (Set, LOOP, 5, Done),
    ];
    let opened = Opened {
        references: 0,
        as_values: 0,
        nested: 127,
    };
    check(&rt, wrong_over(rt.alloc(), LARGE, opened, &lines));
}
