ghost use Rattle.std.specs.Prelude.{◌≡◌, ◌<◌, ◌++◌, ◌∷◌, [], codes, decimal, length, IfOk, OnOk};
ghost use Rattle.cal_gen.specs.Places.{AreFirst, value_at};
ghost use Rattle.cal_gen.specs.GeneratedScript.{name_value, number_value};

use cal_script::ValueList;
use cal_value::{OutOfMemory, Seq, Text, Variant};
use itoa::Buffer;
use std::alloc::Global;
use std::marker::Model;

/// How many values `begin` lines open.
const NAMES: u32 = 16;

/// How many values lines open: behind the names stand the numbers that `set` lines open.
const ALL: u32 = 1016;

/// The values that lines have opened, which contracts see as their list. There are few different
/// ones, so each is known by its place among all that lines open.
#[derive(Debug, Drop)]
pub(crate) struct Opened {
    places: Seq<u32>,
}

impl Model for Opened {
    ghost use Rattle.std.specs.Prelude.{◌<◌, List, map};
    ghost use Rattle.std.specs.List.{All};
    ghost use Rattle.cal_gen.specs.Places.{value_at};
    ghost use Rattle.cal_value.specs.declared.variant.Variant.{Variant};

    ghost Value = { List Variant };

    ghost view = { λ o. map value_at o.places };

    ghost invariant = { λ o. All (λ place. place < 1016) o.places };
}

impl Opened {
    /// No value. It takes no memory.
    pub(crate) fn new(alloc: Global) -> Self
        ensures { result ≡ [] }
    {
        Opened {
            places: Seq::new(alloc),
        }
    }

    /// Adds a name, and gives its place in the list.
    pub(crate) fn push_name(&mut self, name: u32) -> Result<u32, OutOfMemory>
        requires name { name < 16 }
        requires room { length self.old < 1048576 }
        ensures added { OnOk result (self.new ≡ self.old ++ name_value name ∷ []) }
        ensures place { IfOk result (λ place. place ≡ length self.old) }
    {
        self.push_place(name)
    }

    /// Adds a number, and gives its place in the list.
    pub(crate) fn push_number(&mut self, number: u32) -> Result<u32, OutOfMemory>
        requires number { number < 1000 }
        requires room { length self.old < 1048576 }
        ensures added { OnOk result (self.new ≡ self.old ++ number_value number ∷ []) }
        ensures place { IfOk result (λ place. place ≡ length self.old) }
    {
        self.push_place(NAMES + number)
    }

    fn push_place(&mut self, place: u32) -> Result<u32, OutOfMemory>
        requires place { place < 1016 }
        requires room { length self.old < 1048576 }
        ensures added { OnOk result (self.new ≡ self.old ++ value_at place ∷ []) }
        ensures place { IfOk result (λ place. place ≡ length self.old) }
    {
        let count = self.places.len();
        self.places.push(place)?;
        Ok(count as u32)
    }

    /// The values as a script has them. All that lines open are kept, and none twice.
    pub(crate) fn into_values(self, alloc: Global) -> Result<ValueList, OutOfMemory>
        ensures { IfOk result (λ values. values ≡ self) }
    {
        let Opened { places } = self;
        let kept = all_values(alloc)?;
        Ok(ValueList::from_parts(alloc, kept, places))
    }
}

/// All that lines open.
fn all_values(alloc: Global) -> Result<Seq<Variant>, OutOfMemory>
    ensures { IfOk result (AreFirst 1016) }
{
    let mut kept = Seq::new(alloc);
    for place in 0..ALL {
        kept.push(value_at(alloc, place)?)?;
    }
    Ok(kept)
}

/// The value at a place among all that lines open.
fn value_at(alloc: Global, place: u32) -> Result<Variant, OutOfMemory>
    ensures { IfOk result (λ value. value ≡ value_at place) }
{
    if place < NAMES {
        return Ok(Variant::Text(name_of(alloc, place)?));
    }
    Ok(Variant::Int(i128::from(place - NAMES)))
}

fn name_of(alloc: Global, number: u32) -> Result<Text, OutOfMemory>
    ensures { IfOk result (λ name. name ≡ codes "f" ++ decimal number) }
{
    let mut name = Text::from_str(alloc, "f")?;
    name.push_str(Buffer::new().format(number))?;
    Ok(name)
}
