ghost use Rattle.std.specs.Prelude.{◌≡◌, ◌<◌, ◌≤◌, IfOk, take, length, option_copied};
ghost use Rattle.cal_board.specs.Blackboard.{IsWithin, begin_reply, depth_at, end_reply, ended};
ghost use Rattle.cal_board.specs.Blackboard.{IsTableReply, is_top, nothing_open, reply_to, top_at};
ghost use Rattle.cal_board.specs.Slots.{AreOrdered, last_attribute};
ghost use Rattle.cal_board.specs.declared.reply.BoardReply.TheVariants as reply;
ghost use Rattle.cal_words.specs.declared.op.OpCode.TheVariants as code;

use crate::slots::Slots;
use crate::{AttrRef, BoardReply, Growing, Opened, Reserved, Room};
use cal_value::{OutOfMemory, Variant};
use cal_words::OpCode;
use std::alloc::Global;
use std::marker::Model;

/// The most slots that hold values, and the most values of a slot.
const MOST_SLOTS: usize = 64;

const MOST_VALUES: usize = 128;

/// A blackboard that keeps what a maker made for each open value of a reference slot, and the value
/// itself for an as-value slot. It keeps the memory of slots that were closed.
#[derive(Drop)]
pub struct BoardWithRoom<N, R: Room> {
    pub(crate) references: Slots<N, R>,
    pub(crate) as_values: Slots<Variant, R>,
}

/// A blackboard that takes memory as slots are opened.
pub type Board<N> = BoardWithRoom<N, Growing>;

impl<N, R: Room> Model for BoardWithRoom<N, R> {
    ghost use Rattle.cal_board.specs.Blackboard.{Blackboard, IsWithin};

    ghost Value = { Blackboard N };

    ghost view = { λ s. record { references = s.references; as_values = s.as_values } };

    ghost invariant = { λ s. IsWithin (record {
      references = s.references;
      as_values = s.as_values;
    }) };
}

impl<N> BoardWithRoom<N, Growing> {
    /// No value is open. It takes no memory.
    pub fn new(alloc: Global) -> Self
        ensures { result ≡ nothing_open }
    {
        BoardWithRoom {
            references: Slots::new(alloc),
            as_values: Slots::new(alloc),
        }
    }
}

impl<N> BoardWithRoom<N, Reserved> {
    /// No value is open. All memory for 64 slots of each kind, of 128 values each, is taken here.
    pub fn reserved(alloc: Global) -> Result<Self, OutOfMemory>
    where
        N: Drop,
        ensures { IfOk result (λ board. board ≡ nothing_open) }
    {
        Ok(BoardWithRoom {
            references: Slots::reserved(alloc)?,
            as_values: Slots::reserved(alloc)?,
        })
    }
}

impl<N, R: Room> BoardWithRoom<N, R> {
    /// A board is within its limits, and its slots are in order, each with a value.
    pub fn has_few_slots(&self)
        ensures within { IsWithin self.now }
        ensures references { AreOrdered self.now.references }
        ensures as_values { AreOrdered self.now.as_values }
    {
        self.references.is_ordered();
        self.as_values.is_ordered();
    }

    /// What the board replies to such a line, which it isn't told of.
    #[inline(always)]
    pub fn check(&self, code: OpCode, attr: AttrRef) -> BoardReply
        ensures reply { result ≡ reply_to self.now code attr }
        ensures table { IsTableReply result }
    {
        match code {
            OpCode::Begin => self.begin_reply(attr),
            OpCode::End => end_reply(self.top(attr), attr.number),
            OpCode::Set => {
                if is_top(self.top(attr), attr.number) {
                    BoardReply::Done
                } else {
                    self.begin_reply(attr)
                }
            }
        }
    }

    /// Closes the slot's last value. A refusal changes nothing.
    #[inline(always)]
    pub fn end(&mut self, attr: AttrRef) -> BoardReply
    where
        N: Drop,
        ensures replies { result ≡ reply_to self.old code.End attr }
        ensures after { self.new ≡ ended self.old attr }
    {
        let reply = end_reply(self.top(attr), attr.number);
        if reply == BoardReply::Done {
            if attr.as_value {
                self.as_values.pop(attr.slot());
            } else {
                self.references.pop(attr.slot());
            }
        }
        reply
    }

    /// Closes the slot's last value, which the board accepts, as `check` has said.
    #[inline(always)]
    pub fn end_accepted(&mut self, attr: AttrRef)
    where
        N: Drop,
        requires { reply_to self.old code.End attr ≡ reply.Done }
        ensures { self.new ≡ ended self.old attr }
    {
        if attr.as_value {
            self.as_values.pop(attr.slot());
        } else {
            self.references.pop(attr.slot());
        }
    }

    #[inline(always)]
    pub(crate) fn begin_reply(&self, attr: AttrRef) -> BoardReply
        ensures { result ≡ begin_reply self.now attr }
    {
        let depth = self.depth(attr);
        if depth == 0
            && self.references.as_slice().len() + self.as_values.as_slice().len() >= MOST_SLOTS
        {
            BoardReply::SlotsFull
        } else if depth >= MOST_VALUES {
            BoardReply::TooDeep
        } else {
            BoardReply::Done
        }
    }

    /// The number of values in the attribute's slot.
    #[inline(always)]
    pub(crate) fn depth(&self, attr: AttrRef) -> usize
        ensures { result ≡ depth_at self.now attr }
    {
        if attr.as_value {
            self.as_values.opened(attr.slot()).len()
        } else {
            self.references.opened(attr.slot()).len()
        }
    }

    /// The attribute of the slot's last value.
    #[inline(always)]
    pub(crate) fn top(&self, attr: AttrRef) -> Option<u32>
        ensures { result ≡ top_at self.now attr }
    {
        if attr.as_value {
            last_attribute(self.as_values.opened(attr.slot()))
        } else {
            last_attribute(self.references.opened(attr.slot()))
        }
    }
}

/// The reply to the closing of an attribute's value, where the slot's last value has this one.
#[inline(always)]
fn end_reply(top: Option<u32>, attribute: u32) -> BoardReply
    ensures { result ≡ end_reply top attribute }
{
    match top {
        None => BoardReply::NotOpen,
        Some(top) if top == attribute => BoardReply::Done,
        Some(top) => BoardReply::Mismatch { top },
    }
}

#[inline(always)]
pub(crate) fn is_top(top: Option<u32>, attribute: u32) -> bool
    ensures { result ≡ is_top top attribute }
{
    match top {
        None => false,
        Some(top) => top == attribute,
    }
}

#[inline(always)]
fn last_attribute<V>(opened: &[Opened<V>]) -> Option<u32>
    ensures { result ≡ last_attribute opened.now }
{
    match opened.last() {
        None => None,
        Some(last) => Some(last.attribute),
    }
}
