ghost use Rattle.std.specs.Prelude.{◌≡◌, ◌<◌, ◌++◌, ◌∷◌, [], length, map, slice_get, OnOk};
ghost use Rattle.std.specs.Prelude.{IsTrue, Some};
ghost use Rattle.std.specs.List.{All};
ghost use Rattle.std.specs.Option.{option_copied};
ghost use Rattle.cal_script.specs.Values.{value_in};
ghost use Rattle.cal_value.specs.declared.variant.Variant.TheVariants as variant;

use crate::hints::Hints;
use crate::said::{Said, SaidForm};
use cal_value::{OutOfMemory, Seq, Text, Variant};
use std::alloc::Global;
use std::marker::Model;

/// Values in the order in which they came, which contracts see as their list. A text or a number
/// that comes again is kept once, unless too many others came between.
#[derive(Debug, Drop)]
pub struct ValueList {
    kept: Seq<Variant>,
    /// The place of each value among those kept.
    places: Seq<u32>,
    /// By a hash of a text, where it may stand among those kept.
    hints: Hints,
}

impl Model for ValueList {
    ghost use Rattle.std.specs.Prelude.{◌<◌, List, length, map};
    ghost use Rattle.std.specs.List.{All};
    ghost use Rattle.cal_script.specs.Values.{value_in};
    ghost use Rattle.cal_value.specs.declared.variant.Variant.{Variant};

    ghost Value = { List Variant };

    ghost view = { λ v. map (value_in v.kept) v.places };

    ghost invariant = { λ v. All (λ place. place < length v.kept) v.places };
}

impl ValueList {
    /// No value. It takes no memory.
    pub fn new(alloc: Global) -> Self
        ensures { result ≡ [] }
    {
        ValueList {
            kept: Seq::new(alloc),
            places: Seq::new(alloc),
            hints: Hints::new(alloc),
        }
    }

    /// The values at these places of those to be kept.
    pub fn from_parts(alloc: Global, kept: Seq<Variant>, places: Seq<u32>) -> Self
        requires { All (λ place. place < length kept) places }
        ensures { result ≡ map (value_in kept) places }
    {
        ValueList {
            kept,
            places,
            hints: Hints::new(alloc),
        }
    }

    pub fn len(&self) -> usize
        ensures { result ≡ length self.now }
    {
        self.places.len()
    }

    /// The values that are kept, and the place of each value among them.
    pub fn parts(&self) -> (&[Variant], &[u32])
        ensures values { self.now ≡ map (value_in result.0.now) result.1.now }
        ensures within { All (λ place. place < length result.0.now) result.1.now }
    {
        (self.kept.as_slice(), self.places.as_slice())
    }

    /// The value at a place, from 0.
    pub fn get(&self, place: usize) -> Option<&Variant>
        ensures { option_copied result ≡ slice_get self.now place }
    {
        let kept = *self.places.get(place)?;
        self.kept.get(kept as usize)
    }

    /// The value at a place, from 0, which has one.
    pub fn at(&self, place: usize) -> &Variant
        requires { place < length self.now }
        ensures { slice_get self.now place ≡ Some result.now }
    {
        let (kept, places) = self.parts();
        &kept[places[place] as usize]
    }

    /// Adds a value at the end. After an `Err` they are of no more use.
    #[inline(always)]
    pub(crate) fn add(&mut self, alloc: Global, value: Said<'_>) -> Result<(), OutOfMemory>
        ensures { OnOk result (self.new ≡ self.old ++ value.entry ∷ []) }
    {
        match value.form {
            SaidForm::Text { text, hash } => self.add_text(alloc, text, hash),
            SaidForm::Value { value, hash } => self.add_value(alloc, value, hash),
        }
    }

    /// Adds a text of this hash.
    #[inline(always)]
    fn add_text(&mut self, alloc: Global, text: &str, hash: usize) -> Result<(), OutOfMemory>
        ensures { OnOk result (self.new ≡ self.old ++ variant.Text text.now ∷ []) }
    {
        let likely = self.hints.likely(hash);
        if is_at(self.kept.as_slice(), likely as usize, text) {
            self.places.push(likely)?;
            return Ok(());
        }
        self.add_new_text(alloc, text, hash)
    }

    /// Adds a text that isn't known to be kept, and remembers where it stands.
    fn add_new_text(&mut self, alloc: Global, text: &str, hash: usize) -> Result<(), OutOfMemory>
        ensures { OnOk result (self.new ≡ self.old ++ variant.Text text.now ∷ []) }
    {
        self.hints.keep(alloc, hash, self.kept.len())?;
        self.add_new(Variant::Text(Text::from_str(alloc, text)?))
    }

    /// Adds a value of this hash. A number that is known to be kept isn't kept again.
    fn add_value(&mut self, alloc: Global, value: Variant, hash: usize) -> Result<(), OutOfMemory>
        ensures { OnOk result (self.new ≡ self.old ++ value ∷ []) }
    {
        let likely = self.hints.likely(hash);
        if is_number_at(self.kept.as_slice(), likely as usize, &value) {
            self.places.push(likely)?;
            return Ok(());
        }
        self.hints.keep(alloc, hash, self.kept.len())?;
        self.add_new(value)
    }

    fn add_new(&mut self, value: Variant) -> Result<(), OutOfMemory>
        ensures { OnOk result (self.new ≡ self.old ++ value ∷ []) }
    {
        let place = self.kept.len();
        if place > u32::MAX as usize {
            return Err(OutOfMemory);
        }
        self.kept.push(value)?;
        self.places.push(place as u32)?;
        Ok(())
    }
}

/// Whether a text stands at a place of the values kept.
#[inline(always)]
fn is_at(kept: &[Variant], place: usize, text: &str) -> bool
    ensures { IsTrue result → slice_get kept.now place ≡ Some (variant.Text text.now) }
{
    match kept.get(place) {
        Some(Variant::Text(known)) => known.as_str() == text,
        _ => false,
    }
}

/// Whether a number stands at a place of the values kept, and is this value.
fn is_number_at(kept: &[Variant], place: usize, value: &Variant) -> bool
    ensures { IsTrue result → slice_get kept.now place ≡ Some value.now }
{
    match (kept.get(place), value) {
        (Some(Variant::Int(known)), Variant::Int(number)) => *known == *number,
        (Some(Variant::Uint(known)), Variant::Uint(number)) => *known == *number,
        (Some(Variant::Addr(known)), Variant::Addr(number)) => *known == *number,
        (Some(Variant::Fixed(known)), Variant::Fixed(number)) => *known == *number,
        _ => false,
    }
}
