ghost use Rattle.std.specs.Prelude.{◌≡◌, ◌+◌, ◌≤◌, ◌++◌, length, take, All, OnOk, OnErr, option_copied};
ghost use Rattle.cal_board.specs.Blackboard.{depths, own_depths, slot_number};
ghost use Rattle.cal_board.specs.PathBoards.{AreKnown, last_at, last_entries, last_opened};
ghost use Rattle.cal_board.specs.Slots.{last_value, opened_in};
ghost use Rattle.cal_board.specs.Standing.{last_nodes};

use crate::entries::add_last_entries;
use crate::opening::last_value;
use crate::{AttrRef, Board, BoardWithRoom, Opened, Room, Slot};
use cal_value::{Attribute, Entry, OutOfMemory, Seq, Variant};
use std::alloc::Global;
use std::mem::replace;

/// What a board holds.
impl<N, R: Room> BoardWithRoom<N, R> {
    /// The last nodes of the reference slots, in the order of the slots. An `Err` leaves the list.
    #[inline(always)]
    pub fn refs(&self, out: &mut Vec<N>) -> Result<(), OutOfMemory>
    where
        N: Copy,
        ensures ok { OnOk result (out.new.items ≡ out.old.items ++ last_nodes self.now) }
        ensures err { OnErr result (out.new.items ≡ out.old.items) }
    {
        let count = out.len();
        for slot in self.references.as_slice() {
            if let Some(opened) = slot.opened.as_slice().last()
                && out.push(opened.value).is_err()
            {
                out.truncate(count);
                return Err(OutOfMemory);
            }
        }
        Ok(())
    }

    /// Adds the last value of each as-value slot, in the order of the slots. An `Err` leaves the
    /// list.
    pub fn immediates(
        &self,
        alloc: Global,
        attrs: &Seq<Attribute>,
        out: &mut Seq<Entry>,
    ) -> Result<(), OutOfMemory>
        requires { All (λ slot. AreKnown attrs.now slot.opened) self.now.as_values }
        ensures ok { OnOk result (out.new ≡ out.old ++ last_entries attrs.now self.now.as_values) }
        ensures err { OnErr result (out.new ≡ out.old) }
    {
        let mut items = replace(out, Seq::new(alloc)).into_vec();
        let count = items.len();
        let slots = self.as_values.as_slice();
        let added = add_last_entries(alloc, attrs.as_slice(), slots, &mut items);
        if added.is_err() {
            items.truncate(count);
        }
        *out = Seq::from_vec(items);
        added
    }

    /// How many values stand in the slot of the nested attributes, and then in each other slot that
    /// holds values, those of reference attributes first. Gives how many numbers that is.
    pub fn depths(&self, out: &mut [u32; 65]) -> usize
        ensures within { result ≤ 65 }
        ensures depths { take result out.new ≡ depths self.now }
    {
        out[0] = self.references.opened(0).len() as u32;
        let count = add_depths(self.references.as_slice(), out, 1);
        add_depths(self.as_values.as_slice(), out, count)
    }

    /// What stands for the last value in the reference slot of an attribute.
    #[inline(always)]
    pub fn last_node(&self, attr: AttrRef) -> Option<&N>
        ensures { option_copied result
            ≡ last_value (opened_in (slot_number attr) self.now.references) }
    {
        last_value(self.references.opened(attr.slot()))
    }

    /// The last value in the as-value slot of an attribute.
    #[inline(always)]
    pub fn last_immediate(&self, attr: AttrRef) -> Option<&Variant>
        ensures { option_copied result
            ≡ last_value (opened_in (slot_number attr) self.now.as_values) }
    {
        last_value(self.as_values.opened(attr.slot()))
    }

    /// The last open value in the as-value slot of an attribute.
    pub fn last_opened(&self, attr: AttrRef) -> Option<&Opened<Variant>>
        ensures { option_copied result
            ≡ last_opened (opened_in (slot_number attr) self.now.as_values) }
    {
        self.as_values.opened(attr.slot()).last()
    }

    /// The reference slots that hold values.
    pub(crate) fn references(&self) -> &[Slot<N>]
        ensures { result.now ≡ self.now.references }
    {
        self.references.as_slice()
    }

    /// The as-value slots that hold values.
    pub(crate) fn as_values(&self) -> &[Slot<Variant>]
        ensures { result.now ≡ self.now.as_values }
    {
        self.as_values.as_slice()
    }
}

impl Board<Variant> {
    /// The last value in an attribute's slot.
    pub(crate) fn last_plain(&self, attr: AttrRef) -> Option<&Opened<Variant>>
        ensures { option_copied result ≡ last_at self.now attr }
    {
        if attr.as_value {
            self.as_values.opened(attr.slot()).last()
        } else {
            self.references.opened(attr.slot()).last()
        }
    }
}

/// Writes the depth of each slot but the first of all, behind so many numbers.
fn add_depths<V>(slots: &[Slot<V>], out: &mut [u32; 65], from: usize) -> usize
    requires room { from + length slots.now ≤ 65 }
    requires small { All (λ slot. length slot.opened ≤ 128) slots.now }
    ensures within { result ≤ from + length slots.now }
    ensures added { take result out.new ≡ take from out.old ++ own_depths slots.now }
{
    let mut count = from;
    for slot in slots {
        if slot.number > 0 {
            out[count] = slot.opened.len() as u32;
            count += 1;
        }
    }
    count
}
