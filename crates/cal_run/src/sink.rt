ghost use Rattle.std.specs.Prelude.{◌≡◌, ◌∷◌, ◌++◌, [], OnOk};
ghost use Rattle.cal_board.specs.Standing.{last_immediates};
ghost use Rattle.cal_run.specs.Adding.{IsEventValue};
ghost use Rattle.cal_value.specs.declared.variant.Variant.TheVariants as variant;

use cal_board::{Board, Draft};
use cal_context::AttributeNumber;
use cal_script::Script;
use cal_value::{OutOfMemory, Variant};
use std::alloc::Global;

/// The value that an event shows: one of the script's values, by its place, or another one, or none,
/// which is shown as false.
#[derive(Clone, Copy)]
pub enum EventValue<'a> {
    Opened(u32),
    Lent(&'a Variant),
    Absent,
}

/// Whoever takes the immediates of a snapshot, one behind another. After an `Err` nothing is
/// promised of it.
pub trait ImmediateSink {
    ghost use Rattle.std.specs.Prelude.{List};
    ghost use Rattle.cal_context.specs.declared.snapshot.Immediate.{Immediate};
    ghost use Rattle.cal_value.specs.declared.variant.Variant.{Variant};

    // the immediates so far, by the values of the script
    ghost imms: { Self → List Variant → List Immediate };

    /// Adds a number.
    fn push_number(&mut self, attribute: AttributeNumber, n: u64) -> Result<(), OutOfMemory>
        ensures { OnOk result ((values : List Variant) → imms self.new values
            ≡ imms self.old values ++ record { attribute = attribute; value = variant.Uint n } ∷ []) };

    /// Adds the value of an event.
    fn push_value(
        &mut self,
        alloc: Global,
        script: &Script,
        attribute: AttributeNumber,
        value: EventValue<'_>,
    ) -> Result<(), OutOfMemory>
        requires { (v : Variant) × IsEventValue script.now.values value v }
        ensures { OnOk result ((v : Variant) → IsEventValue script.now.values value.entry v
            → imms self.new script.now.values
            ≡ imms self.old script.now.values ++ record { attribute = attribute; value = v } ∷ []) };

    /// Adds the last value of each as-value slot of a board, in the order of the slots, under the
    /// number of its attribute.
    fn push_values<N>(&mut self, alloc: Global, board: &Board<N>) -> Result<(), OutOfMemory>
        ensures { OnOk result ((values : List Variant) → imms self.new values
            ≡ imms self.old values ++ last_immediates board.now) };
}

/// A draft keeps a copy of each value.
impl ImmediateSink for Draft {
    ghost imms = { λ draft _. draft };

    #[inline(always)]
    fn push_number(&mut self, attribute: AttributeNumber, n: u64) -> Result<(), OutOfMemory> {
        self.push_number(attribute, n)
    }

    #[inline(always)]
    fn push_value(
        &mut self,
        alloc: Global,
        script: &Script,
        attribute: AttributeNumber,
        value: EventValue<'_>,
    ) -> Result<(), OutOfMemory> {
        match value {
            EventValue::Opened(place) => {
                let opened = script.values.at(place as usize);
                self.push_copy(alloc, attribute, opened)
            }
            EventValue::Lent(value) => self.push_copy(alloc, attribute, value),
            EventValue::Absent => self.push_copy(alloc, attribute, &Variant::Bool(false)),
        }
    }

    #[inline(always)]
    fn push_values<N>(&mut self, alloc: Global, board: &Board<N>) -> Result<(), OutOfMemory> {
        self.push_values(alloc, board)
    }
}
