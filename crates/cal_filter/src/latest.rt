//! Where the last immediates of names stand in one record.
ghost use Rattle.std.specs.Prelude.{◌≡◌, ℕ, ◌+◌, ◌<◌, [], ◌∷◌, ◌++◌, List, drop, length, map, Some};
ghost use Rattle.std.specs.Prelude.{slice_get, slice_index_or, slice_set, replicate, None};
ghost use Rattle.std.specs.Prelude.{IfOk, OnOk};
ghost use Rattle.std.specs.List.{All, AllZip};
ghost use Rattle.cal_context.specs.Lists.{IsFront};
ghost use Rattle.cal_context.specs.Tree.{Tree};
ghost use Rattle.cal_context.specs.declared.snapshot.Immediate.{Immediate as ImmediateOf};
ghost use Rattle.cal_filter.specs.Latest.{IsLatest, KnowsAllNames, KnowsNames};
ghost use Rattle.cal_filter.specs.Latest.{number_at, place_for};
ghost use Rattle.cal_filter.specs.Memo.{is_of};

use crate::attribute_names::AttributeNames;
use crate::wanted::Wanted;
use crate::{AttributeMemo, number_in};
use cal_context::{AttributeNumber, Context, Immediate};
use cal_seeds::Seeds;
use cal_value::{OutOfMemory, Text, TryCopy};
use indexmap::IndexSet;
use std::alloc::Global;

/// Where the last immediates of names stand in one record: of each name the last one that has it,
/// and the last of these that is a number.
#[derive(Drop)]
pub(crate) struct Latest {
    names: IndexSet<Text, Seeds>,
    // of each attribute: the number of its name, if it is one of these
    named: AttributeNames,
    // of each name: where its last immediate stands, if it has one
    places: Vec<Option<usize>>,
    // the same of its last number
    number_places: Vec<Option<usize>>,
}

impl Latest {
    /// Of these names, in no record yet. It takes no memory.
    pub(crate) fn new(alloc: Global, names: IndexSet<Text, Seeds>) -> Latest
        ensures names { result.names ≡ names }
        ensures knows { (t : Tree) → KnowsNames t result }
    {
        let _ = names.as_slice();
        Latest {
            names,
            named: AttributeNames::new(alloc),
            places: Vec::new(alloc),
            number_places: Vec::new(alloc),
        }
    }

    /// Forgets the last record, and goes through the immediates of the next. It takes time for the
    /// names and the immediates, and once for each new attribute.
    pub(crate) fn begin(&mut self, context: &Context, imms: &[Immediate]) -> Result<(), OutOfMemory>
        requires { All (λ imm. imm.attribute.0 < length context.now.attributes) imms.now }
        ensures latest { OnOk result
            (KnowsNames context.now self.old → IsLatest context.now self.new imms.now) }
        ensures names { OnOk result (self.new.names ≡ self.old.names) }
    {
        self.know_attributes(context)?;
        self.forget()?;
        self.note_all(imms);
        Ok(())
    }

    /// Gets to know what attributes are new in a context: each one's name is looked for once.
    pub(crate) fn know_attributes(&mut self, context: &Context) -> Result<(), OutOfMemory>
        ensures knows { OnOk result
            (KnowsNames context.now self.old → KnowsAllNames context.now self.new) }
        ensures names { OnOk result (self.new.names ≡ self.old.names) }
    {
        for place in self.named.len()..context.attribute_count() {
            let Ok(number) = u32::try_from(place) else {
                return Err(OutOfMemory);
            };
            self.know_attribute(context, AttributeNumber(number))?;
        }
        Ok(())
    }

    /// Gets to know the attribute that comes next.
    fn know_attribute(
        &mut self,
        context: &Context,
        attribute: AttributeNumber,
    ) -> Result<(), OutOfMemory>
        requires within { attribute.0 < length context.now.attributes }
        requires next { length self.old.named ≡ attribute.0 }
        ensures knows { OnOk result
            (KnowsNames context.now self.old → KnowsNames context.now self.new) }
        ensures counted { OnOk result
            (length self.new.named ≡ length self.old.named + 1) }
        ensures names { OnOk result (self.new.names ≡ self.old.names) }
    {
        let name = &context.attribute_at(attribute).name;
        self.named.push(self.names.get_index_of(name))?;
        Ok(())
    }

    fn forget(&mut self) -> Result<(), OutOfMemory>
        ensures forgets { OnOk result ((t : Tree) → KnowsAllNames t self.old
            → IsLatest t self.new []) }
        ensures names { OnOk result (self.new.names ≡ self.old.names) }
    {
        put_none(&mut self.places, self.names.len())?;
        put_none(&mut self.number_places, self.names.len())
    }

    fn note_all(&mut self, imms: &[Immediate])
        ensures follows { (t : Tree)
            → All (λ imm. imm.attribute.0 < length t.attributes) imms.now
            → IsLatest t self.old [] → IsLatest t self.new imms.now }
        ensures names { self.new.names ≡ self.old.names }
    {
        for place in 0..imms.len() {
            let imm = &imms[place];
            self.note(place, imm);
        }
    }

    /// Notes the immediate that comes next, at this place.
    pub(crate) fn note(&mut self, place: usize, imm: &Immediate)
        ensures follows { (t : Tree) (imms : List ImmediateOf)
            → place ≡ length imms → imm.now.attribute.0 < length t.attributes
            → IsLatest t self.old imms → IsLatest t self.new (imms ++ imm.now ∷ []) }
        ensures names { self.new.names ≡ self.old.names }
    {
        let Some(number) = self.number_of(imm.attribute) else {
            return;
        };
        put(&mut self.places, number, place);
        if number_in(&imm.value).is_none() {
            return;
        }
        put(&mut self.number_places, number, place);
    }

    /// Tells a memo which of the attributes that it lacks have the name of this number.
    pub(crate) fn tell(&self, name: usize, memo: &mut AttributeMemo) -> Result<(), OutOfMemory>
        ensures { OnOk result (memo.new
            ≡ memo.old ++ drop (length memo.old) (map (is_of name) self.now.named)) }
    {
        self.named.tell(name, memo)
    }

    fn number_of(&self, attribute: AttributeNumber) -> Option<usize>
        ensures { result ≡ number_at self.now attribute }
    {
        self.named.get(attribute)
    }

    /// Where the last immediate of a name stands, or its last number where a number is wanted.
    pub(crate) fn place(&self, wanted: &Wanted, name: usize) -> Option<usize>
        ensures { result ≡ place_for self.now wanted.now name }
    {
        match wanted {
            Wanted::Number => place_at(&self.number_places, name),
            _ => place_at(&self.places, name),
        }
    }
}

fn place_at(places: &[Option<usize>], name: usize) -> Option<usize>
    ensures { result ≡ slice_index_or places.now name None }
{
    places.get(name).copied().unwrap_or(None)
}

fn put_none(places: &mut Vec<Option<usize>>, count: usize) -> Result<(), OutOfMemory>
    ensures { OnOk result (places.new.items ≡ replicate count None) }
{
    places.clear();
    places.resize(count, None)?;
    Ok(())
}

fn put(places: &mut Vec<Option<usize>>, name: usize, place: usize)
    ensures { name < length places.old.items
        → places.new.items ≡ slice_set places.old.items name (Some place) }
{
    if name < places.len() {
        places[name] = Some(place);
    }
}

/// The numbers of names among those that are there. New ones are added.
pub(crate) fn number_names(
    alloc: Global,
    args: &[Text],
    names: &mut IndexSet<Text, Seeds>,
) -> Result<Vec<usize>, OutOfMemory>
    ensures numbers { IfOk result (λ numbers.
        AllZip (λ name n. slice_get names.new.keys n ≡ Some name) args.now numbers.items) }
    ensures front { OnOk result (IsFront names.old.keys names.new.keys) }
{
    let mut numbers = Vec::with_capacity(alloc, args.len())?;
    for name in args {
        let number = number_name(alloc, name, names)?;
        numbers.push(number)?;
    }
    Ok(numbers)
}

fn number_name(
    alloc: Global,
    name: &Text,
    names: &mut IndexSet<Text, Seeds>,
) -> Result<usize, OutOfMemory>
    ensures number { IfOk result (λ n. slice_get names.new.keys n ≡ Some name.now) }
    ensures front { OnOk result (IsFront names.old.keys names.new.keys) }
{
    if let Some(number) = names.get_index_of(name) {
        return Ok(number);
    }
    let (number, _) = names.insert_full(name.copy(alloc)?)?;
    Ok(number)
}
