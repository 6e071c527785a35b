//! The lines that a small tree is tried with.
ghost use Rattle.std.specs.Prelude.{◌≡◌, ◌^◌, ◌<◌, IfOk, IsTrue, false};
ghost use Rattle.cal_board.specs.Standing.{StandsForSome};
ghost use Rattle.cal_hand.specs.Nodes.{NodeAt};
ghost use Rattle.cal_tree.specs.Seats.{IsTreeSeat};
ghost use Rattle.cal_words.specs.Words.{text_length};

use Act::{Begin, Set};
use Slot::{Nested, Own};
use Value::{Chars, Int, Uint};
use cal_board::{AttrRef, BoardReply};
use cal_hand::SharedBoard;
use cal_tree::{Tree, TreeSeat};
use cal_value::{OutOfMemory, Text, Variant};
use std::alloc::Global;

/// What a line does.
#[derive(Clone, Copy)]
pub(crate) enum Act {
    Begin,
    Set,
}

/// Where a value stands: in the slot of the nested attributes, or in one of its attribute's own.
#[derive(Clone, Copy)]
pub(crate) enum Slot {
    Nested,
    Own,
}

/// A value, as the table writes it.
#[derive(Clone, Copy)]
pub(crate) enum Value {
    Chars(&'static str),
    Uint(u64),
    Int(i128),
}

/// A line with its slot, its attribute's number and its value, and how many words the record of its
/// node has.
pub(crate) type Line = (Act, Slot, u32, Value, u64);

/// Each needs a node that none before needs. Its words are three for where it stands, one for the
/// kind and the length of its value, and those of the value.
const LINES: [Line; 12] = [
    (Begin, Nested, 0, Chars(""), 4),
    (Begin, Nested, 1, Uint(1), 5),
    (Set, Nested, 1, Uint(2), 5),
    (Begin, Own, 7, Int(3), 6),
    (Begin, Nested, 0, Chars("a text of 17 byte"), 7),
    (Set, Own, 7, Uint(4), 5),
    (Begin, Nested, 1, Chars("of eight"), 5),
    (Begin, Nested, 0, Int(-5), 6),
    (Begin, Own, 8, Chars(""), 4),
    (Begin, Nested, 1, Chars("of 9 byte"), 6),
    (Set, Own, 8, Uint(6), 5),
    (Begin, Nested, 0, Uint(7), 5),
];

pub(crate) fn lines() -> [Line; 12] {
    LINES
}

fn attr_of(slot: Slot, number: u32) -> AttrRef
    ensures { result.as_value ≡ false }
{
    AttrRef {
        number,
        nested: matches!(slot, Nested),
        as_value: false,
    }
}

/// A text of at most 100 bytes.
fn text_of(alloc: Global, text: &str) -> Result<Variant, OutOfMemory>
    ensures { IfOk result (λ v. text_length v < 2 ^ 32) }
{
    let text = Text::from_str(alloc, text)?;
    if text.len() > 100 {
        return Ok(Variant::Bool(false));
    }
    Ok(Variant::Text(text))
}

fn value_of(alloc: Global, value: Value) -> Result<Variant, OutOfMemory>
    ensures { IfOk result (λ v. text_length v < 2 ^ 32) }
{
    match value {
        Chars(text) => text_of(alloc, text),
        Uint(number) => Ok(Variant::Uint(number)),
        Int(number) => Ok(Variant::Int(number)),
    }
}

/// What a board replies to a value that is opened or set.
fn reply_to(
    tree: &Tree,
    seat: &mut TreeSeat,
    board: &mut SharedBoard,
    act: Act,
    attr: AttrRef,
    value: &Variant,
) -> BoardReply
    requires seat { IsTreeSeat tree.now seat.old }
    requires text { text_length value.now < 2 ^ 32 }
    requires reference { attr.as_value ≡ false }
    requires stands { StandsForSome (NodeAt tree.now seat.old) board.old }
    ensures seat { IsTreeSeat tree.now seat.new }
    ensures stands { StandsForSome (NodeAt tree.now seat.new) board.new }
{
    match act {
        Begin => board.begin(tree, seat, attr, value),
        Set => board.set(tree, seat, attr, value),
    }
}

/// What a board replies to a line.
pub(crate) fn do_line(
    alloc: Global,
    tree: &Tree,
    seat: &mut TreeSeat,
    board: &mut SharedBoard,
    line: Line,
) -> Result<BoardReply, OutOfMemory>
    requires seat { IsTreeSeat tree.now seat.old }
    requires stands { StandsForSome (NodeAt tree.now seat.old) board.old }
    ensures seat { IsTreeSeat tree.now seat.new }
    ensures stands { StandsForSome (NodeAt tree.now seat.new) board.new }
{
    let (act, slot, attribute, value, _need) = line;
    let value = value_of(alloc, value)?;
    let attr = attr_of(slot, attribute);
    let reply = reply_to(tree, seat, board, act, attr, &value);
    drop(value);
    Ok(reply)
}
