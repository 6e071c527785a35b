ghost use Rattle.std.specs.Prelude.{◌≡◌, ◌<◌, [], ◌∷◌, codes, length, map, slice_get, Some};
ghost use Rattle.std.specs.Prelude.{IfOk, IfSome, OnOk};
ghost use Rattle.std.specs.List.{filter_map};
ghost use Rattle.std.specs.Option.{option_to_list};
ghost use Rattle.cal_context.specs.Tree.{Tree};
ghost use Rattle.cal_filter.specs.Known.{Knows, sought};
ghost use Rattle.cal_filter.specs.Sought.{number_of, whole_of};
ghost use Rattle.cal_value.specs.Flat.{flat};
ghost use Rattle.cal_parts.specs.Counters.{CountsFor, IsReadyFound, IsWithin, SeekMore};
ghost use Rattle.cal_parts.specs.Counters.{number_at, record_of, sought_for, sought_in};
ghost use Rattle.cal_parts.specs.Kernels.{weight as weight_of};
ghost use Rattle.cal_parts.specs.PartLists.{merged_at};
ghost use Rattle.cal_parts.specs.Parts.{part_over};
ghost use Rattle.cal_parts.specs.Readings.{part_of as part_by};
ghost use Rattle.cal_parts.specs.declared.reading.Reading.{Reading as AReading};

use crate::finding::Found;
use crate::part_list::PartList;
use crate::reading::Reading;
use cal_agg::Num;
use cal_filter::Seeker;
use cal_ql::KernelName;
use cal_seeds::Seeds;
use cal_value::{OutOfMemory, Text, TryCopy};
use indexmap::IndexMap;
use std::alloc::Global;

/// What is added to the part of a kernel: what the seekers at these places find in a record.
#[derive(Drop)]
pub(crate) struct Counter {
    pub kernel: KernelName,
    pub places: Vec<usize>,
}

impl Counter {
    /// The counter of a reading. The seekers that it lacks are added. Beside them stand the places
    /// of those that seek a number, by name.
    pub(crate) fn of(
        alloc: Global,
        reading: &Reading,
        seekers: &mut Vec<Seeker>,
        known: &mut IndexMap<Text, usize, Seeds>,
    ) -> Result<Counter, OutOfMemory>
        ensures counts { IfOk result (CountsFor (map sought seekers.new.items) reading.now) }
        ensures more { OnOk result (SeekMore seekers.old.items seekers.new.items) }
    {
        let kernel = reading.kernel;
        Ok(Counter {
            kernel,
            places: places_for(alloc, kernel, reading.names.as_slice(), seekers, known)?,
        })
    }

    /// Adds what is found in one record to a part.
    #[inline(always)]
    pub(crate) fn add_to(
        &self,
        alloc: Global,
        found: &Found,
        parts: &mut PartList,
        place: usize,
    ) -> Result<(), OutOfMemory>
        requires within { IsWithin found.now }
        requires place { place < length parts.old }
        ensures added { OnOk result ((r : AReading) → CountsFor (sought_in found.now) r self.now
            → IsReadyFound found.now
            → parts.new ≡ merged_at parts.old place (part_by r (record_of found.now))) }
        ensures long { length parts.new ≡ length parts.old }
    {
        match self.kernel {
            KernelName::Count => {
                let number = weight(found, &self.places);
                parts.add(alloc, place, self.kernel, &number)
            }
            _ => add_numbers(alloc, self.kernel, &self.places, found, parts, place),
        }
    }
}

fn places_for(
    alloc: Global,
    kernel: KernelName,
    names: &[Text],
    seekers: &mut Vec<Seeker>,
    known: &mut IndexMap<Text, usize, Seeds>,
) -> Result<Vec<usize>, OutOfMemory>
    ensures places { IfOk result (λ places. map (slice_get (map sought seekers.new.items))
        places.items ≡ map Some (sought_for kernel names.now)) }
    ensures more { OnOk result (SeekMore seekers.old.items seekers.new.items) }
{
    match kernel {
        KernelName::Count => weight_places(alloc, seekers),
        _ => number_places(alloc, names, seekers, known),
    }
}

fn weight_places(alloc: Global, seekers: &mut Vec<Seeker>) -> Result<Vec<usize>, OutOfMemory>
    ensures places { IfOk result (λ places. map (slice_get (map sought seekers.new.items))
        places.items ≡ Some (whole_of (codes "count")) ∷ []) }
    ensures more { OnOk result (SeekMore seekers.old.items seekers.new.items) }
{
    let name = Text::from_str(alloc, "count")?;
    let place = put_seeker(seekers, Seeker::of_whole(alloc, name))?;
    let mut places = Vec::new(alloc);
    places.push(place)?;
    Ok(places)
}

fn number_places(
    alloc: Global,
    names: &[Text],
    seekers: &mut Vec<Seeker>,
    known: &mut IndexMap<Text, usize, Seeds>,
) -> Result<Vec<usize>, OutOfMemory>
    ensures places { IfOk result (λ places. map (slice_get (map sought seekers.new.items))
        places.items ≡ map Some (map number_of names.now)) }
    ensures more { OnOk result (SeekMore seekers.old.items seekers.new.items) }
{
    let mut places = Vec::new(alloc);
    for name in names {
        let place = place_of(alloc, name, seekers, known)?;
        places.push(place)?;
    }
    Ok(places)
}

/// The place of the seeker of a name, which is added where none is known.
fn place_of(
    alloc: Global,
    name: &Text,
    seekers: &mut Vec<Seeker>,
    known: &mut IndexMap<Text, usize, Seeds>,
) -> Result<usize, OutOfMemory>
    ensures place { IfOk result (λ place.
        slice_get (map sought seekers.new.items) place ≡ Some (number_of name.now)) }
    ensures more { OnOk result (SeekMore seekers.old.items seekers.new.items) }
{
    if let Some(place) = find_place(seekers, known, name) {
        return Ok(place);
    }
    let key = name.copy(alloc)?;
    let name = name.copy(alloc)?;
    let place = put_seeker(seekers, Seeker::of_number(alloc, name))?;
    known.insert(key, place)?;
    Ok(place)
}

/// The place of the seeker of a name, if it is known.
fn find_place(
    seekers: &[Seeker],
    known: &IndexMap<Text, usize, Seeds>,
    name: &Text,
) -> Option<usize>
    ensures { IfSome result (λ place.
        slice_get (map sought seekers.now) place ≡ Some (number_of name.now)) }
{
    match known.get(name) {
        Some(place) => tested(seekers, *place, name),
        None => None,
    }
}

/// A place, if the seeker of a name stands there.
fn tested(seekers: &[Seeker], place: usize, name: &Text) -> Option<usize>
    ensures { IfSome result (λ place.
        slice_get (map sought seekers.now) place ≡ Some (number_of name.now)) }
{
    if place >= seekers.len() {
        return None;
    }
    if !seekers[place].is_of_number(name) {
        return None;
    }
    Some(place)
}

/// Adds a seeker that knows nothing yet.
fn put_seeker(seekers: &mut Vec<Seeker>, seeker: Seeker) -> Result<usize, OutOfMemory>
    requires { (t : Tree) → Knows t seeker }
    ensures place { IfOk result (λ place.
        slice_get (map sought seekers.new.items) place ≡ Some (sought seeker)) }
    ensures more { OnOk result (SeekMore seekers.old.items seekers.new.items) }
{
    let place = seekers.len();
    seekers.push(seeker)?;
    Ok(place)
}

/// How much a record counts.
#[inline(always)]
fn weight(found: &Found, places: &[usize]) -> Num
    requires { IsWithin found.now }
    ensures { IsReadyFound found.now → map (slice_get (sought_in found.now)) places.now
        ≡ Some (whole_of (codes "count")) ∷ [] → result ≡ weight_of (record_of found.now) }
{
    match places.first() {
        Some(place) => found.at(*place).unwrap_or(Num::Whole(1)),
        None => Num::Whole(1),
    }
}

/// Adds what the seekers at these places find to the part of a kernel.
#[inline(always)]
fn add_numbers(
    alloc: Global,
    kernel: KernelName,
    places: &[usize],
    found: &Found,
    parts: &mut PartList,
    place: usize,
) -> Result<(), OutOfMemory>
    requires within { IsWithin found.now }
    requires place { place < length parts.old }
    ensures added { OnOk result (IsReadyFound found.now
        → parts.new ≡ merged_at parts.old place (part_over kernel
        (filter_map (number_at (sought_in found.now) (flat (record_of found.now))) places.now))) }
    ensures long { length parts.new ≡ length parts.old }
{
    for asked in places {
        let number = found.at(*asked);
        add_some(alloc, kernel, number, parts, place)?;
    }
    Ok(())
}

/// Adds a number to the part of a kernel, if there is one.
#[inline(always)]
fn add_some(
    alloc: Global,
    kernel: KernelName,
    number: Option<Num>,
    parts: &mut PartList,
    place: usize,
) -> Result<(), OutOfMemory>
    requires { place < length parts.old }
    ensures added { OnOk result
        (parts.new ≡ merged_at parts.old place (part_over kernel (option_to_list number))) }
    ensures long { length parts.new ≡ length parts.old }
{
    match number {
        Some(number) => parts.add(alloc, place, kernel, &number),
        None => Ok(()),
    }
}
