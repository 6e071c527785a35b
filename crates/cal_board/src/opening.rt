ghost use Rattle.std.specs.Prelude.{◌≡◌, ◌<◌, ◌≤◌, IfOk, OnOk, OnErr, option_copied, false};
ghost use Rattle.std.specs.Prelude.{true};
ghost use Rattle.cal_board.specs.Asking.{Does, IsRefused, Puts};
ghost use Rattle.cal_board.specs.Blackboard.{begin_reply, begun, depth_at, is_top, opened_instead};
ghost use Rattle.cal_board.specs.Blackboard.{reply_to, top_at, with_values};
ghost use Rattle.cal_board.specs.Slots.{front, last_value};
ghost use Rattle.cal_board.specs.Standing.{StandsForSome, StandsThen, Steps};
ghost use Rattle.cal_board.specs.declared.reply.BoardReply.TheVariants as reply;
ghost use Rattle.cal_words.specs.declared.op.OpCode.TheVariants as code;

use crate::board::is_top;
use crate::{AttrRef, BoardReply, BoardWithRoom, NodeMaker, Opened, Room};
use cal_value::OutOfMemory;
use std::alloc::Global;

/// The lines that open values.
impl<N, R: Room> BoardWithRoom<N, R> {
    /// Opens a value, by one call of the maker where its slot is a reference slot. A refusal
    /// changes nothing.
    #[inline(always)]
    pub fn begin<V: Drop, M: NodeMaker<V, N>>(
        &mut self,
        alloc: Global,
        maker: &mut M,
        attr: AttrRef,
        value: V,
    ) -> Result<BoardReply, OutOfMemory>
    where
        N: Drop,
        requires known { M.knows maker.old attr.number value }
        requires space { attr.as_value ≡ false → M.has_room maker.old value }
        requires stands { StandsForSome (M.is_node maker.old) self.old }
        ensures steps { IfOk result (Steps (M.is_node maker.old) (M.is_node maker.new)
            self.old self.new code.Begin attr (M.value_of maker.old value)) }
        ensures does { IfOk result (Does M.adds maker.old maker.new self.old self.new
            code.Begin attr (M.value_of maker.old value)) }
        ensures err { OnErr result (self.new ≡ self.old) }
        ensures accepted { OnErr result (reply_to self.old code.Begin attr ≡ reply.Done) }
        ensures refused { 64 ≤ R.slots → OnErr result (IsRefused M.refuses M.is_plain
            maker.old maker.new self.old code.Begin attr value) }
        ensures onward { M.grows maker.old maker.new }
    {
        match self.begin_reply(attr) {
            BoardReply::Done => {
                self.open(alloc, maker, attr, value)?;
                Ok(BoardReply::Done)
            }
            refused => Ok(refused),
        }
    }

    /// Puts a value in the place of the slot's last one where that has the attribute, and else
    /// opens it. A refusal changes nothing.
    #[inline(always)]
    pub fn set<V: Drop, M: NodeMaker<V, N>>(
        &mut self,
        alloc: Global,
        maker: &mut M,
        attr: AttrRef,
        value: V,
    ) -> Result<BoardReply, OutOfMemory>
    where
        N: Drop,
        requires known { M.knows maker.old attr.number value }
        requires space { attr.as_value ≡ false → M.has_room maker.old value }
        requires stands { StandsForSome (M.is_node maker.old) self.old }
        ensures steps { IfOk result (Steps (M.is_node maker.old) (M.is_node maker.new)
            self.old self.new code.Set attr (M.value_of maker.old value)) }
        ensures does { IfOk result (Does M.adds maker.old maker.new self.old self.new
            code.Set attr (M.value_of maker.old value)) }
        ensures err { OnErr result (self.new ≡ self.old) }
        ensures accepted { OnErr result (reply_to self.old code.Set attr ≡ reply.Done) }
        ensures refused { 64 ≤ R.slots → OnErr result (IsRefused M.refuses M.is_plain
            maker.old maker.new self.old code.Set attr value) }
        ensures onward { M.grows maker.old maker.new }
    {
        if is_top(self.top(attr), attr.number) {
            self.open_instead(alloc, maker, attr, value)?;
            Ok(BoardReply::Done)
        } else {
            self.begin(alloc, maker, attr, value)
        }
    }

    /// Opens a value that the board accepts, as `check` has said.
    #[inline(always)]
    pub fn begin_accepted<V: Drop, M: NodeMaker<V, N>>(
        &mut self,
        alloc: Global,
        maker: &mut M,
        attr: AttrRef,
        value: V,
    ) -> Result<(), OutOfMemory>
    where
        N: Drop,
        requires known { M.knows maker.old attr.number value }
        requires space { attr.as_value ≡ false → M.has_room maker.old value }
        requires stands { StandsForSome (M.is_node maker.old) self.old }
        requires accepted { reply_to self.old code.Begin attr ≡ reply.Done }
        ensures steps { OnOk result (Steps (M.is_node maker.old) (M.is_node maker.new)
            self.old self.new code.Begin attr (M.value_of maker.old value) reply.Done) }
        ensures puts { OnOk result (Puts M.adds maker.old maker.new self.old self.new
            code.Begin attr (M.value_of maker.old value) attr.as_value) }
        ensures err { OnErr result (self.new ≡ self.old) }
        ensures refused { 64 ≤ R.slots → OnErr result (IsRefused M.refuses M.is_plain
            maker.old maker.new self.old code.Begin attr value) }
        ensures onward { M.grows maker.old maker.new }
    {
        self.open(alloc, maker, attr, value)?;
        Ok(())
    }

    fn open<V: Drop, M: NodeMaker<V, N>>(
        &mut self,
        alloc: Global,
        maker: &mut M,
        attr: AttrRef,
        value: V,
    ) -> Result<(), OutOfMemory>
    where
        N: Drop,
        requires known { M.knows maker.old attr.number value }
        requires space { attr.as_value ≡ false → M.has_room maker.old value }
        requires stands { StandsForSome (M.is_node maker.old) self.old }
        requires room { begin_reply self.old attr ≡ reply.Done }
        ensures stands { OnOk result (StandsThen (M.is_node maker.old) (M.is_node maker.new)
            self.old self.new
            (λ b. begun b attr (M.value_of maker.old value) (M.value_of maker.old value))) }
        ensures puts { OnOk result (Puts M.adds maker.old maker.new self.old self.new
            code.Begin attr (M.value_of maker.old value) attr.as_value) }
        ensures err { OnErr result (self.new ≡ self.old) }
        ensures refused { 64 ≤ R.slots → OnErr result (IsRefused M.refuses M.is_plain
            maker.old maker.new self.old code.Begin attr value) }
        ensures onward { M.grows maker.old maker.new }
    {
        let attribute = attr.number;
        if attr.as_value {
            let value = maker.copy(alloc, value)?;
            self.as_values
                .push(attr.slot(), Opened { attribute, value })
        } else {
            let parent = last_value(self.references.opened(attr.slot()));
            let value = maker.child(parent, attribute, value)?;
            self.references
                .push(attr.slot(), Opened { attribute, value })
        }
    }

    fn open_instead<V: Drop, M: NodeMaker<V, N>>(
        &mut self,
        alloc: Global,
        maker: &mut M,
        attr: AttrRef,
        value: V,
    ) -> Result<(), OutOfMemory>
    where
        N: Drop,
        requires known { M.knows maker.old attr.number value }
        requires space { attr.as_value ≡ false → M.has_room maker.old value }
        requires stands { StandsForSome (M.is_node maker.old) self.old }
        requires there { 0 < depth_at self.old attr }
        requires top { is_top (top_at self.old attr) attr.number ≡ true }
        ensures stands { OnOk result (StandsThen (M.is_node maker.old) (M.is_node maker.new)
            self.old self.new (λ b. with_values b attr
            (opened_instead attr.number (M.value_of maker.old value))
            (opened_instead attr.number (M.value_of maker.old value)))) }
        ensures puts { OnOk result (Puts M.adds maker.old maker.new self.old self.new
            code.Set attr (M.value_of maker.old value) attr.as_value) }
        ensures err { OnErr result (self.new ≡ self.old) }
        ensures refused { 64 ≤ R.slots → OnErr result (IsRefused M.refuses M.is_plain
            maker.old maker.new self.old code.Set attr value) }
        ensures onward { M.grows maker.old maker.new }
    {
        let attribute = attr.number;
        if attr.as_value {
            let value = maker.copy(alloc, value)?;
            self.as_values
                .replace(attr.slot(), Opened { attribute, value });
        } else {
            let parent = value_before(self.references.opened(attr.slot()));
            let value = maker.child(parent, attribute, value)?;
            self.references
                .replace(attr.slot(), Opened { attribute, value });
        }
        Ok(())
    }
}

#[inline(always)]
pub(crate) fn last_value<V>(opened: &[Opened<V>]) -> Option<&V>
    ensures { option_copied result ≡ last_value opened.now }
{
    match opened.last() {
        None => None,
        Some(last) => Some(&last.value),
    }
}

/// What stands for the value below the last one.
fn value_before<V>(opened: &[Opened<V>]) -> Option<&V>
    ensures { option_copied result ≡ last_value (front opened.now) }
{
    if opened.is_empty() {
        None
    } else {
        last_value(&opened[..opened.len() - 1])
    }
}
