//! Boards over plain values.

use cal_board::{AttrRef, BoardReply, PathBoard};
use cal_value::{OutOfMemory, Variant};
use cal_words::OpCode;
use std::alloc::Global;
use std::process::Abort;

const FUNCTION: AttrRef = AttrRef {
    number: 0,
    nested: true,
    as_value: false,
};

const LOOP: AttrRef = AttrRef {
    number: 1,
    nested: true,
    as_value: false,
};

const ITERATION: AttrRef = AttrRef {
    number: 2,
    nested: false,
    as_value: true,
};

/// An attribute that isn't nested, in a slot of its own.
fn own(number: u32) -> AttrRef {
    AttrRef {
        number,
        nested: false,
        as_value: false,
    }
}

/// What a board replies to a line.
fn reply_to(board: &mut PathBoard, code: OpCode, attr: AttrRef) -> Result<BoardReply, OutOfMemory> {
    match code {
        OpCode::Begin => board.begin(attr, &Variant::Int(3)),
        OpCode::Set => board.set(attr, &Variant::Int(3)),
        OpCode::End => Ok(board.end(attr)),
    }
}

/// A line, and the reply to it.
type Line = (OpCode, AttrRef, BoardReply);

/// Opens so many attributes, each in a slot of its own.
fn open_slots(board: &mut PathBoard, slots: u32) -> Result<(), OutOfMemory> {
    for number in 0..slots {
        let _ = reply_to(board, OpCode::Begin, own(number))?;
    }
    Ok(())
}

/// Opens so many values of `function`.
fn open_values(board: &mut PathBoard, values: u32) -> Result<(), OutOfMemory> {
    for _ in 0..values {
        let _ = reply_to(board, OpCode::Begin, FUNCTION)?;
    }
    Ok(())
}

/// The first of these lines with another reply.
fn wrong_line(board: &mut PathBoard, lines: &[Line]) -> Result<Option<usize>, OutOfMemory> {
    for row in 0..lines.len() {
        let (code, attr, wanted) = lines[row];
        if reply_to(board, code, attr)? != wanted {
            return Ok(Some(row));
        }
    }
    Ok(None)
}

fn opened(board: &mut PathBoard, slots: u32, values: u32) -> Result<(), OutOfMemory> {
    open_slots(board, slots)?;
    open_values(board, values)
}

/// The same on a board with so many slots, and so many values of `function`.
fn wrong_behind(
    alloc: Global,
    slots: u32,
    values: u32,
    lines: &[Line],
) -> Result<Option<usize>, OutOfMemory> {
    let mut board = PathBoard::new(alloc);
    let wrong = match opened(&mut board, slots, values) {
        Ok(()) => wrong_line(&mut board, lines),
        Err(end) => Err(end),
    };
    drop(board);
    wrong
}

fn check(rt: &impl Abort, wrong: Result<Option<usize>, OutOfMemory>) {
    assert_eq!(rt; wrong, Ok(None), "the first wrong line");
}

#[test]
fn the_65th_slot_is_refused(rt: HostRuntime) {
    use BoardReply::{Done, SlotsFull};
    use OpCode::{Begin, End, Set};
    let lines = [
        (Begin, own(64), SlotsFull),
        (Set, ITERATION, SlotsFull),
        (Begin, own(63), Done),
        (End, own(5), Done),
        (Begin, own(64), Done),
        (Begin, own(5), SlotsFull),
    ];
    check(&rt, wrong_behind(rt.alloc(), 64, 0, &lines));
}

#[test]
fn the_129th_value_of_a_slot_is_refused(rt: HostRuntime) {
    use BoardReply::{Done, TooDeep};
    use OpCode::{Begin, Set};
    let lines = [
        (Begin, FUNCTION, Done),
        (Begin, FUNCTION, TooDeep),
        // another nested attribute has the same slot
        (Set, LOOP, TooDeep),
        (Set, FUNCTION, Done),
        (Set, ITERATION, Done),
    ];
    check(&rt, wrong_behind(rt.alloc(), 0, 127, &lines));
}

#[test]
fn a_line_is_refused_by_the_slots_last_value(rt: HostRuntime) {
    use BoardReply::{Done, Mismatch, NotOpen};
    use OpCode::{Begin, End, Set};
    let lines = [
        (End, FUNCTION, NotOpen),
        (Begin, FUNCTION, Done),
        (End, LOOP, Mismatch { top: 0 }),
        // `set` on another attribute's value opens one
        (Set, LOOP, Done),
        (Set, LOOP, Done),
        (End, FUNCTION, Mismatch { top: 1 }),
        (End, LOOP, Done),
        (End, FUNCTION, Done),
        (Set, ITERATION, Done),
        (Set, ITERATION, Done),
        (End, ITERATION, Done),
        (End, ITERATION, NotOpen),
    ];
    check(&rt, wrong_behind(rt.alloc(), 0, 0, &lines));
}
