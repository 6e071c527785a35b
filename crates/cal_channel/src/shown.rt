ghost use Rattle.std.specs.Prelude.{◌≡◌, IfOk, slice_index_or};
ghost use Rattle.cal_channel.specs.Shown.{numbered_entry, value_shown};
ghost use Rattle.cal_context.specs.Tree.{no_value};

use cal_context::AttributeNumber;
use cal_script::Script;
use cal_snap::NumberedEntry;
use cal_value::{OutOfMemory, TryCopy, Variant};
use std::alloc::Global;

/// The value of an entry as a thread keeps it: one of the script's values, by its place, or a
/// number, or another value.
#[derive(Debug, Drop)]
pub enum ShownValue {
    Opened(u32),
    Number(u64),
    Plain(Variant),
}

/// An entry of a snapshot by numbers.
#[derive(Debug, Drop)]
pub struct ShownEntry {
    pub attribute: AttributeNumber,
    pub value: ShownValue,
}

impl TryCopy for ShownEntry {
    fn copy(&self, alloc: Global) -> Result<ShownEntry, OutOfMemory> {
        Ok(ShownEntry {
            attribute: self.attribute,
            value: self.value.copy(alloc)?,
        })
    }
}

impl TryCopy for ShownValue {
    fn copy(&self, alloc: Global) -> Result<ShownValue, OutOfMemory> {
        Ok(match self {
            ShownValue::Opened(place) => ShownValue::Opened(*place),
            ShownValue::Number(n) => ShownValue::Number(*n),
            ShownValue::Plain(value) => ShownValue::Plain(value.copy(alloc)?),
        })
    }
}

impl ShownEntry {
    /// The entry as a table takes it, which has its value whole. It takes memory for a text.
    pub fn numbered(&self, alloc: Global, script: &Script) -> Result<NumberedEntry, OutOfMemory>
        ensures { IfOk result (λ entry. entry ≡ numbered_entry script.now.values self.now) }
    {
        Ok(NumberedEntry {
            attribute: self.attribute.0,
            value: self.value.whole(alloc, script)?,
        })
    }
}

impl ShownValue {
    /// The value itself. It takes memory for a text.
    pub fn whole(&self, alloc: Global, script: &Script) -> Result<Variant, OutOfMemory>
        ensures { IfOk result (λ value. value ≡ value_shown script.now.values self.now) }
    {
        match self {
            ShownValue::Opened(place) => opened(alloc, script, *place),
            ShownValue::Number(n) => Ok(Variant::Uint(*n)),
            ShownValue::Plain(value) => value.copy(alloc),
        }
    }
}

/// The script's value at a place.
pub(crate) fn opened(alloc: Global, script: &Script, place: u32) -> Result<Variant, OutOfMemory>
    ensures { IfOk result (λ value. value ≡ slice_index_or script.now.values place no_value) }
{
    match script.values.get(place as usize) {
        Some(value) => value.copy(alloc),
        None => Ok(Variant::Bool(false)),
    }
}
