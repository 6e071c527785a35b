ghost use Rattle.std.specs.Prelude.{◌≡◌, ◌^◌, ◌<◌, ◌≤◌, ◌++◌, All, IfOk, IsTrue, OnErr, OnOk, take};
ghost use Rattle.cal_board.specs.Blackboard.{IsTableReply, depths, ended, nothing_open, reply_to};
ghost use Rattle.cal_board.specs.PathBoards.{AreKnown, last_entries};
ghost use Rattle.cal_board.specs.Standing.{StandsForSome, last_nodes};
ghost use Rattle.cal_hand.specs.Boards.{Replies};
ghost use Rattle.cal_hand.specs.Hands.{GrowsHand};
ghost use Rattle.cal_hand.specs.Nodes.{IsPlain, NodeAt};
ghost use Rattle.cal_once.specs.Seats.{view};
ghost use Rattle.cal_once.specs.Views.{IsLater};
ghost use Rattle.cal_tree.specs.Seats.{IsTreeSeat};
ghost use Rattle.cal_words.specs.Words.{text_length};
ghost use Rattle.cal_words.specs.declared.op.OpCode.TheVariants as code;

use crate::Hand;
use crate::by_hand::{begin_by, set_by};
use cal_board::{AttrRef, BoardReply, BoardWithRoom, Reserved};
use cal_tree::{Tree, TreeSeat};
use cal_value::{Attribute, Entry, OutOfMemory, Seq, Variant};
use cal_words::{NodeId, OpCode};
use std::alloc::Global;
use std::marker::Model;
use std::mem::replace;

/// A blackboard of nodes of a shared tree, with memory for 64 slots of 128 values from the start.
#[derive(Drop)]
pub struct SharedBoard {
    alloc: Global,
    pub(crate) board: BoardWithRoom<NodeId, Reserved>,
}

impl Model for SharedBoard {
    ghost use Rattle.cal_board.specs.Blackboard.{Blackboard};
    ghost use Rattle.cal_words.specs.declared.node.NodeId.{NodeId};

    ghost Value = { Blackboard NodeId };

    ghost view = { λ s. s.board };
}

impl SharedBoard {
    /// No value is open. All its memory is taken here.
    pub fn new(alloc: Global) -> Result<Self, OutOfMemory>
        ensures { IfOk result (λ board. board ≡ nothing_open) }
    {
        Ok(SharedBoard {
            alloc,
            board: BoardWithRoom::reserved(alloc)?,
        })
    }

    /// What the board replies to such a line, which it isn't told of.
    pub fn check(&self, code: OpCode, attr: AttrRef) -> BoardReply
        ensures reply { result ≡ reply_to self.now code attr }
        ensures table { IsTableReply result }
    {
        self.board.check(code, attr)
    }

    /// Opens a value, with a node of the tree where its slot is a reference slot. It replies by the
    /// table, and `TreeFull` where the table accepts the line and the tree refuses the node. A
    /// refusal changes nothing. It takes no memory.
    pub fn begin(
        &mut self,
        tree: &Tree,
        seat: &mut TreeSeat,
        attr: AttrRef,
        value: &Variant,
    ) -> BoardReply
        requires seat { IsTreeSeat tree.now seat.old }
        requires text { text_length value.now < 2 ^ 32 }
        requires plain { IsTrue attr.as_value → IsPlain value.now }
        requires stands { StandsForSome (NodeAt tree.now seat.old) self.old }
        ensures seat { IsTreeSeat tree.now seat.new }
        ensures later { IsLater (view seat.old) (view seat.new) }
        ensures replies { Replies tree.now seat.old seat.new self.old self.new
            code.Begin attr value.now result }
        ensures holds { StandsForSome (NodeAt tree.now seat.new) self.new }
    {
        let mut hand = Hand {
            tree,
            seat,
            value,
            full: None,
        };
        begin_reserved(self.alloc, &mut hand, attr, &mut self.board)
    }

    /// Puts a value in the place of the slot's last one where that has the attribute, and else opens
    /// it, as `begin` does.
    pub fn set(
        &mut self,
        tree: &Tree,
        seat: &mut TreeSeat,
        attr: AttrRef,
        value: &Variant,
    ) -> BoardReply
        requires seat { IsTreeSeat tree.now seat.old }
        requires text { text_length value.now < 2 ^ 32 }
        requires plain { IsTrue attr.as_value → IsPlain value.now }
        requires stands { StandsForSome (NodeAt tree.now seat.old) self.old }
        ensures seat { IsTreeSeat tree.now seat.new }
        ensures later { IsLater (view seat.old) (view seat.new) }
        ensures replies { Replies tree.now seat.old seat.new self.old self.new
            code.Set attr value.now result }
        ensures holds { StandsForSome (NodeAt tree.now seat.new) self.new }
    {
        let mut hand = Hand {
            tree,
            seat,
            value,
            full: None,
        };
        set_reserved(self.alloc, &mut hand, attr, &mut self.board)
    }

    /// Closes the slot's last value. A refusal changes nothing. It takes no memory.
    pub fn end(&mut self, attr: AttrRef) -> BoardReply
        ensures replies { result ≡ reply_to self.old code.End attr }
        ensures after { self.new ≡ ended self.old attr }
    {
        self.board.end(attr)
    }

    /// Adds the last nodes of the reference slots, in the order of the slots. An `Err` leaves the
    /// list.
    pub fn refs(&self, out: &mut Seq<NodeId>) -> Result<(), OutOfMemory>
        ensures ok { OnOk result (out.new ≡ out.old ++ last_nodes self.now) }
        ensures err { OnErr result (out.new ≡ out.old) }
    {
        let mut nodes = replace(out, Seq::new(self.alloc)).into_vec();
        let added = self.board.refs(&mut nodes);
        *out = Seq::from_vec(nodes);
        added
    }

    /// Adds the last value of each as-value slot, in the order of the slots. An `Err` leaves the
    /// list.
    pub fn immediates(
        &self,
        attrs: &Seq<Attribute>,
        out: &mut Seq<Entry>,
    ) -> Result<(), OutOfMemory>
        requires { All (λ slot. AreKnown attrs.now slot.opened) self.now.as_values }
        ensures ok { OnOk result (out.new ≡ out.old ++ last_entries attrs.now self.now.as_values) }
        ensures err { OnErr result (out.new ≡ out.old) }
    {
        self.board.immediates(self.alloc, attrs, out)
    }

    /// How many values stand in the slot of the nested attributes, and then in each other slot that
    /// holds values, those of reference attributes first. Gives how many numbers that is. It takes
    /// no memory.
    pub fn depths(&self, out: &mut [u32; 65]) -> usize
        ensures within { result ≤ 65 }
        ensures depths { take result out.new ≡ depths self.now }
    {
        self.board.depths(out)
    }
}

/// Opens a hand's value on a board that has all its room, so that only the tree may refuse it.
fn begin_reserved(
    alloc: Global,
    hand: &mut Hand<'_>,
    attr: AttrRef,
    board: &mut BoardWithRoom<NodeId, Reserved>,
) -> BoardReply
    requires seat { IsTreeSeat hand.old.tree.now hand.old.seat.now }
    requires text { text_length hand.old.value.now < 2 ^ 32 }
    requires plain { IsTrue attr.as_value → IsPlain hand.old.value.now }
    requires stands { StandsForSome (NodeAt hand.old.tree.now hand.old.seat.now) board.old }
    ensures grows { GrowsHand hand.old hand.new }
    ensures replies { Replies hand.old.tree.now hand.old.seat.now hand.new.seat.now
        board.old board.new code.Begin attr hand.old.value.now result }
    ensures holds { StandsForSome (NodeAt hand.old.tree.now hand.new.seat.now) board.new }
{
    match begin_by(alloc, hand, attr, board) {
        Ok(reply) => reply,
        Err(_) => match hand.full {
            Some(full) => BoardReply::TreeFull(full),
            None => unreachable!(),
        },
    }
}

/// The same of a `set`.
fn set_reserved(
    alloc: Global,
    hand: &mut Hand<'_>,
    attr: AttrRef,
    board: &mut BoardWithRoom<NodeId, Reserved>,
) -> BoardReply
    requires seat { IsTreeSeat hand.old.tree.now hand.old.seat.now }
    requires text { text_length hand.old.value.now < 2 ^ 32 }
    requires plain { IsTrue attr.as_value → IsPlain hand.old.value.now }
    requires stands { StandsForSome (NodeAt hand.old.tree.now hand.old.seat.now) board.old }
    ensures grows { GrowsHand hand.old hand.new }
    ensures replies { Replies hand.old.tree.now hand.old.seat.now hand.new.seat.now
        board.old board.new code.Set attr hand.old.value.now result }
    ensures holds { StandsForSome (NodeAt hand.old.tree.now hand.new.seat.now) board.new }
{
    match set_by(alloc, hand, attr, board) {
        Ok(reply) => reply,
        Err(_) => match hand.full {
            Some(full) => BoardReply::TreeFull(full),
            None => unreachable!(),
        },
    }
}
