ghost use Rattle.std.specs.Prelude.{◌≡◌, ◌<◌, ◌≤◌, ◌++◌, length, take, All, IfOk, OnOk, OnErr, Some};
ghost use Rattle.std.specs.Prelude.{option_map};
ghost use Rattle.cal_board.specs.Blackboard.{IsTableReply, board_after, depths, ended, nothing_open, reply_to};
ghost use Rattle.cal_board.specs.PathBoards.{AreKnown, IsLastValue, entries_of, entry_in};
ghost use Rattle.cal_board.specs.PathBoards.{last_at, last_entries};
ghost use Rattle.cal_board.specs.declared.opened.Opened as opened;
ghost use Rattle.cal_value.specs.declared.variant.Variant as variants;
ghost use Rattle.cal_words.specs.declared.op.OpCode.TheVariants as code;

use crate::entries::{add_paths, entry_of};
use crate::{AttrRef, Board, BoardReply, NodeMaker};
use cal_value::{Attribute, Entry, OutOfMemory, Seq, TryCopy, Variant};
use cal_words::OpCode;
use std::alloc::Global;
use std::marker::Model;
use std::mem::replace;

/// A board over plain values: what it keeps for an open value is a copy of it.
#[derive(Drop)]
pub struct PathBoard {
    alloc: Global,
    board: Board<Variant>,
}

impl Model for PathBoard {
    ghost use Rattle.cal_board.specs.Blackboard.{Blackboard};
    ghost use Rattle.cal_value.specs.declared.variant.Variant.{Variant};

    ghost Value = { Blackboard Variant };

    ghost view = { λ s. s.board };
}

/// Makes a copy of each value, which stands for the values up to it.
#[derive(Drop)]
struct Copies {
    alloc: Global,
}

impl<'a> NodeMaker<&'a Variant, Variant> for Copies {
    ghost value_of = { λ _ v. v.now };

    ghost knows = { λ _ _ _. Unit {0} };

    ghost has_room = { λ _ _. Unit {0} };

    ghost is_node = { λ _. IsLastValue };

    ghost grows = { λ _ _. Unit {0} };

    ghost adds = { λ _ _ _. Unit {0} };

    ghost refuses = { λ _ _ _ _ _. Unit {0} };

    ghost is_plain = { λ _ _. ⊥ };

    ghost same = { λ _. tt };

    ghost stays = { λ _ _ _ _ _ is. is };

    fn child(
        &mut self,
        _parent: Option<&Variant>,
        _attribute: u32,
        value: &'a Variant,
    ) -> Result<Variant, OutOfMemory> {
        value.copy(self.alloc)
    }

    fn copy(&self, alloc: Global, value: &'a Variant) -> Result<Variant, OutOfMemory> {
        value.copy(alloc)
    }
}

impl PathBoard {
    /// No value is open. It takes no memory.
    pub fn new(alloc: Global) -> Self
        ensures { result ≡ nothing_open }
    {
        PathBoard {
            alloc,
            board: Board::new(alloc),
        }
    }

    /// What the board replies to such a line, which it isn't told of.
    pub fn check(&self, code: OpCode, attr: AttrRef) -> BoardReply
        ensures reply { result ≡ reply_to self.now code attr }
        ensures table { IsTableReply result }
    {
        self.board.check(code, attr)
    }

    /// Opens a value. A refusal changes nothing.
    pub fn begin(&mut self, attr: AttrRef, value: &Variant) -> Result<BoardReply, OutOfMemory>
        ensures replies { IfOk result (λ reply. reply ≡ reply_to self.old code.Begin attr) }
        ensures after { OnOk result
            (self.new ≡ board_after self.old code.Begin attr value.now value.now) }
        ensures err { OnErr result (self.new ≡ self.old) }
    {
        let mut copies = Copies { alloc: self.alloc };
        self.board.begin(self.alloc, &mut copies, attr, value)
    }

    /// Puts a value in the place of the slot's last one where that has the attribute, and else
    /// opens it. A refusal changes nothing.
    pub fn set(&mut self, attr: AttrRef, value: &Variant) -> Result<BoardReply, OutOfMemory>
        ensures replies { IfOk result (λ reply. reply ≡ reply_to self.old code.Set attr) }
        ensures after { OnOk result
            (self.new ≡ board_after self.old code.Set attr value.now value.now) }
        ensures err { OnErr result (self.new ≡ self.old) }
    {
        let mut copies = Copies { alloc: self.alloc };
        self.board.set(self.alloc, &mut copies, attr, value)
    }

    /// Closes the slot's last value. A refusal changes nothing.
    pub fn end(&mut self, attr: AttrRef) -> BoardReply
        ensures replies { result ≡ reply_to self.old code.End attr }
        ensures after { self.new ≡ ended self.old attr }
    {
        self.board.end(attr)
    }

    /// Adds the open values of each reference slot as a path, in the order of the slots. An `Err`
    /// leaves the list.
    pub fn paths(
        &self,
        attrs: &Seq<Attribute>,
        out: &mut Seq<Seq<Entry>>,
    ) -> Result<(), OutOfMemory>
        requires { All (λ slot. AreKnown attrs.now slot.opened) self.now.references }
        ensures ok { OnOk result (out.new ≡ out.old ++ entries_of attrs.now self.now.references) }
        ensures err { OnErr result (out.new ≡ out.old) }
    {
        let mut items = replace(out, Seq::new(self.alloc)).into_vec();
        let count = items.len();
        let slots = self.board.references();
        let added = add_paths(self.alloc, attrs.as_slice(), slots, &mut items);
        if added.is_err() {
            items.truncate(count);
        }
        *out = Seq::from_vec(items);
        added
    }

    /// Adds the last value of each as-value slot, in the order of the slots. An `Err` leaves the
    /// list.
    pub fn immediates(
        &self,
        attrs: &Seq<Attribute>,
        out: &mut Seq<Entry>,
    ) -> Result<(), OutOfMemory>
        requires { All (λ slot. AreKnown attrs.now slot.opened) self.now.as_values }
        ensures ok { OnOk result (out.new ≡ out.old ++ last_entries attrs.now self.now.as_values) }
        ensures err { OnErr result (out.new ≡ out.old) }
    {
        self.board.immediates(self.alloc, attrs, out)
    }

    /// How many values stand in each slot, as `Board::depths` says.
    pub fn depths(&self, out: &mut [u32; 65]) -> usize
        ensures within { result ≤ 65 }
        ensures depths { take result out.new ≡ depths self.now }
    {
        self.board.depths(out)
    }

    /// The last value in an attribute's slot.
    pub fn last(
        &self,
        alloc: Global,
        attrs: &Seq<Attribute>,
        attr: AttrRef,
    ) -> Result<Entry, OutOfMemory>
        requires { (o : opened.Opened variants.Variant) × (last_at self.now attr ≡ Some o)
            × (o.attribute < length attrs.now) }
        ensures { IfOk result (λ entry.
            option_map (entry_in attrs.now) (last_at self.now attr) ≡ Some entry) }
    {
        match self.board.last_plain(attr) {
            Some(last) => entry_of(alloc, attrs.as_slice(), last),
            None => unreachable!(),
        }
    }
}
