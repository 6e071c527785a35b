ghost use Rattle.std.specs.Prelude.{◌≡◌, ◌<◌, [], length, OnOk, OnErr, IsTrue};
ghost use Rattle.cal_board.specs.Blackboard.{is_top};
ghost use Rattle.cal_board.specs.Readings.{last_reading, readings_after};
ghost use Rattle.cal_board.specs.Slots.{last_attribute};
ghost use Rattle.cal_words.specs.declared.op.OpCode.TheVariants as code;

use crate::slots::Slots;
use crate::{AttrRef, Growing, Opened};
use cal_value::OutOfMemory;
use cal_words::OpCode;
use std::alloc::Global;
use std::marker::Model;

/// For each open value of a board, slot by slot as the values, the clock's reading of the line that
/// put it there.
#[derive(Drop)]
pub struct Readings {
    slots: Slots<u64, Growing>,
}

impl Model for Readings {
    ghost use Rattle.std.specs.Prelude.{ℕ, List};
    ghost use Rattle.cal_board.specs.declared.opened.Slot.{Slot};

    ghost Value = { List (Slot ℕ) };

    ghost view = { λ s. s.slots };
}

impl Readings {
    /// No value is open. It takes no memory.
    pub fn new(alloc: Global) -> Self
        ensures { result ≡ [] }
    {
        Readings {
            slots: Slots::new(alloc),
        }
    }

    /// Follows an operation that a board accepted, whose line has this reading. An `Err` leaves all
    /// as it was.
    #[inline(always)]
    pub fn follow(&mut self, code: OpCode, attr: AttrRef, reading: u64) -> Result<(), OutOfMemory>
        ensures after { OnOk result (self.new ≡ readings_after self.old code attr reading) }
        ensures err { OnErr result (self.new ≡ self.old) }
    {
        let opened = Opened {
            attribute: attr.number,
            value: reading,
        };
        match code {
            OpCode::Begin => self.slots.push(attr.slot(), opened),
            OpCode::End => {
                self.slots.pop(attr.slot());
                Ok(())
            }
            OpCode::Set => self.set(attr, opened),
        }
    }

    fn set(&mut self, attr: AttrRef, opened: Opened<u64>) -> Result<(), OutOfMemory>
        requires { opened.attribute ≡ attr.number }
        ensures after { OnOk result (self.new ≡ readings_after self.old code.Set attr opened.value) }
        ensures err { OnErr result (self.new ≡ self.old) }
    {
        if is_last(self.slots.opened(attr.slot()), attr.number) {
            self.slots.replace(attr.slot(), opened);
            Ok(())
        } else {
            self.slots.push(attr.slot(), opened)
        }
    }

    /// The reading of the line that put the last value of an attribute's slot there, and 0 where the
    /// slot holds none.
    #[inline(always)]
    pub fn last(&self, attr: AttrRef) -> u64
        ensures { result ≡ last_reading self.now attr }
    {
        match self.slots.opened(attr.slot()).last() {
            None => 0,
            Some(last) => last.value,
        }
    }
}

/// Whether the last of open values has this attribute.
fn is_last<V>(opened: &[Opened<V>], attribute: u32) -> bool
    ensures is { result ≡ is_top (last_attribute opened.now) attribute }
    ensures there { IsTrue result → 0 < length opened.now }
{
    match opened.last() {
        None => false,
        Some(last) => last.attribute == attribute,
    }
}
