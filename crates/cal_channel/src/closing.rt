ghost use Rattle.std.specs.Prelude.{◌≡◌, false, if◌then◌else◌, List, IfOk, Some};
ghost use Rattle.cal_board.specs.Blackboard.{slot_number};
ghost use Rattle.cal_board.specs.Slots.{last_value, opened_in};
ghost use Rattle.cal_board.specs.Standing.{StandsForSome};
ghost use Rattle.cal_board.specs.declared.opened.Opened as opened;
ghost use Rattle.cal_channel.specs.Closing.{HasRead, IsOwnValue, IsRead};
ghost use Rattle.cal_hand.specs.Nodes.{NodeAt};
ghost use Rattle.cal_once.specs.Seats.{view};
ghost use Rattle.cal_once.specs.Views.{Learns};
ghost use Rattle.cal_run.specs.Adding.{AsksFor};
ghost use Rattle.cal_run.specs.Lines.{is_shared};
ghost use Rattle.cal_tree.specs.Seats.{IsTreeSeat};
ghost use Rattle.cal_value.specs.declared.variant.Variant as variants;
ghost use Rattle.cal_words.specs.declared.node.NodeId as nodes_of;

use cal_board::{AttrRef, Board};
use cal_run::{EventValue, NodeValues, Operation, attr_ref, is_shared};
use cal_script::Script;
use cal_tree::{Tree, TreeSeat};
use cal_value::{OutOfMemory, Variant};
use cal_words::{Node, NodeId, OpCode};
use std::alloc::Global;

/// A node whose value a line closes, with that value.
#[derive(Debug, Drop)]
pub struct ClosedNode {
    pub node: NodeId,
    pub value: Variant,
}

/// The nodes of a shared tree as a seat knows them, of which one was read.
pub struct ClosedNodes<'a> {
    pub tree: &'a Tree,
    pub seat: &'a TreeSeat,
    pub closed: &'a Option<ClosedNode>,
}

/// Only the node that was read may be asked for.
impl<'c> NodeValues<NodeId> for ClosedNodes<'c> {
    ghost use Rattle.cal_channel.specs.Closing.{IsRead};
    ghost use Rattle.cal_hand.specs.Nodes.{NodeAt};

    ghost is_node = { λ c. NodeAt c.tree.now c.seat.now };

    ghost has_values = { λ _ _. Unit {0} };

    ghost is_asked = { λ c. IsRead c.tree.now c.seat.now c.closed.now };

    fn last_value<'a>(&'a self, node: &'a NodeId) -> EventValue<'a> {
        let _ = node;
        match self.closed {
            Some(closed) => EventValue::Lent(&closed.value),
            None => EventValue::Absent,
        }
    }
}

/// Reads the value that an operation closes, where it is that of a node: for an `end` of a
/// reference attribute whose slot holds a value. For all others it takes no time and no memory. The
/// node's words are read into `words`, whose memory serves again; a text takes memory of its own.
pub fn closed(
    alloc: Global,
    script: &Script,
    tree: &Tree,
    seat: &mut TreeSeat,
    op: Option<Operation>,
    board: &Board<NodeId>,
    process: &Board<NodeId>,
    words: &mut Vec<u64>,
) -> Result<Option<ClosedNode>, OutOfMemory>
    requires seat { IsTreeSeat tree.now seat.old }
    requires board { StandsForSome (NodeAt tree.now seat.old) board.now }
    requires process { StandsForSome (NodeAt tree.now seat.old) process.now }
    ensures seat { IsTreeSeat tree.now seat.new }
    ensures learns { Learns (view seat.old) (view seat.new) }
    ensures read { IfOk result (λ closed.
        HasRead tree.now seat.new script.now closed board.now process.now op) }
{
    match op {
        None => Ok(None),
        Some(op) => {
            let acted = acted_on(script, op, board, process);
            let found = closed_on(alloc, script, tree, seat, op, acted, words)?;
            Ok(found)
        }
    }
}

/// The board that an operation acts on.
fn acted_on<'a>(
    script: &Script,
    op: Operation,
    board: &'a Board<NodeId>,
    process: &'a Board<NodeId>,
) -> &'a Board<NodeId>
    ensures { result.now ≡ (if is_shared script.now op then process.now else board.now) }
{
    if is_shared(script, op) {
        process
    } else {
        board
    }
}

/// The same of the board that an operation acts on.
fn closed_on(
    alloc: Global,
    script: &Script,
    tree: &Tree,
    seat: &mut TreeSeat,
    op: Operation,
    board: &Board<NodeId>,
    words: &mut Vec<u64>,
) -> Result<Option<ClosedNode>, OutOfMemory>
    requires seat { IsTreeSeat tree.now seat.old }
    requires board { StandsForSome (NodeAt tree.now seat.old) board.now }
    ensures seat { IsTreeSeat tree.now seat.new }
    ensures learns { Learns (view seat.old) (view seat.new) }
    ensures read { IfOk result (λ closed.
        AsksFor (IsRead tree.now seat.new closed) script.now board.now op) }
{
    if op.code == OpCode::End {
        let attr = attr_ref(script, op.attr);
        let found = closed_in(alloc, tree, seat, attr, board, words)?;
        Ok(found)
    } else {
        Ok(None)
    }
}

/// The last value of an attribute's slot, where that is a reference slot which holds one.
fn closed_in(
    alloc: Global,
    tree: &Tree,
    seat: &mut TreeSeat,
    attr: AttrRef,
    board: &Board<NodeId>,
    words: &mut Vec<u64>,
) -> Result<Option<ClosedNode>, OutOfMemory>
    requires seat { IsTreeSeat tree.now seat.old }
    requires board { StandsForSome (NodeAt tree.now seat.old) board.now }
    ensures seat { IsTreeSeat tree.now seat.new }
    ensures learns { Learns (view seat.old) (view seat.new) }
    ensures read { IfOk result (λ closed. attr.as_value ≡ false → (n : nodes_of.NodeId)
        → last_value (opened_in (slot_number attr) board.now.references) ≡ Some n
        → IsRead tree.now seat.new closed n) }
{
    if attr.as_value {
        return Ok(None);
    }
    match board.last_node(attr) {
        None => Ok(None),
        Some(node) => {
            let node = *node;
            let value = own_value(alloc, tree, seat, node, words)?;
            Ok(Some(ClosedNode { node, value }))
        }
    }
}

/// The value of a node below the root.
fn own_value(
    alloc: Global,
    tree: &Tree,
    seat: &mut TreeSeat,
    node: NodeId,
    words: &mut Vec<u64>,
) -> Result<Variant, OutOfMemory>
    requires seat { IsTreeSeat tree.now seat.old }
    requires node { (path : List (opened.Opened variants.Variant))
        × NodeAt tree.now seat.old node path }
    ensures seat { IsTreeSeat tree.now seat.new }
    ensures learns { Learns (view seat.old) (view seat.new) }
    ensures own { IfOk result (IsOwnValue tree.now seat.new node) }
{
    let found = tree.read(alloc, seat, node, words)?;
    let Node {
        parent: _,
        depth: _,
        attr: _,
        value,
    } = found;
    Ok(value)
}
