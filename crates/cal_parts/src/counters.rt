ghost use Rattle.std.specs.Prelude.{◌≡◌, ◌+◌, ◌≤◌, ◌++◌, [], List, length, map, take};
ghost use Rattle.std.specs.Prelude.{IfOk, OnOk, OnErr};
ghost use Rattle.std.specs.List.{AllZip};
ghost use Rattle.cal_context.specs.Snapshots.{IsIn, meaning};
ghost use Rattle.cal_context.specs.Tree.{Tree};
ghost use Rattle.cal_filter.specs.Known.{sought};
ghost use Rattle.cal_parts.specs.Counters.{AreCounters, AreReadyCounters, CountsFor};
ghost use Rattle.cal_parts.specs.Counters.{IsReadyFound, IsWithin, SeekMore};
ghost use Rattle.cal_parts.specs.Counters.{record_of, sought_in};
ghost use Rattle.cal_parts.specs.PartLists.{merged_from};
ghost use Rattle.cal_parts.specs.Parts.{part_over};
ghost use Rattle.cal_parts.specs.Readings.{parts_of as parts_by};
ghost use Rattle.cal_parts.specs.declared.reading.Reading.{Reading as AReading};

use crate::counter::Counter;
use crate::finding::{Found, number_at};
use crate::part::Part;
use crate::part_list::PartList;
use crate::reading::Reading;
use cal_context::{Context, Snapshot};
use cal_filter::{Seeker, catch_up_all};
use cal_seeds::Seeds;
use cal_value::OutOfMemory;
use indexmap::IndexMap;
use std::alloc::Global;

/// What is read of records by number for the kernels of a query. What is sought for several kernels
/// is sought once, and what a seeker needs of a node it finds once.
#[derive(Drop)]
pub struct Counters {
    seekers: Vec<Seeker>,
    counters: Vec<Counter>,
    // the place of the seeker that most kernels ask, or any other
    usual: usize,
}

impl Counters {
    /// The counters of readings, whose names hash by these seeds.
    pub fn of(alloc: Global, seeds: Seeds, readings: &[Reading]) -> Result<Counters, OutOfMemory>
        ensures { IfOk result (λ counters. (t : Tree) → AreCounters t readings.now counters) }
    {
        let mut seekers = Vec::new(alloc);
        let counters = counters_of(alloc, seeds, readings, &mut seekers)?;
        let usual = usual_place(&counters);
        Ok(Counters {
            seekers,
            counters,
            usual,
        })
    }

    /// How many there are.
    #[inline(always)]
    pub(crate) fn len(&self) -> usize
        ensures { result ≡ length self.now.counters.items }
    {
        self.counters.len()
    }

    /// Gets to know what is new in a context.
    #[inline(always)]
    pub fn catch_up(&mut self, context: &Context) -> Result<(), OutOfMemory>
        ensures { OnOk result ((rs : List AReading)
            → AreCounters context.now rs self.old → AreReadyCounters context.now rs self.new) }
    {
        catch_up_all(&mut self.seekers, context)
    }

    /// Adds what is read of one record to the parts of a group, which stand in a list from a place
    /// on, as many as there are counters.
    #[inline(always)]
    pub(crate) fn add_record(
        &self,
        alloc: Global,
        context: &Context,
        snapshot: &Snapshot,
        parts: &mut PartList,
        from: usize,
    ) -> Result<(), OutOfMemory>
        requires within { IsIn context.now snapshot.now }
        requires places { from + length self.now.counters.items ≤ length parts.old }
        ensures added { OnOk result ((rs : List AReading)
            → AreReadyCounters context.now rs self.now → parts.new
            ≡ merged_from parts.old from (parts_by rs (meaning context.now snapshot.now))) }
        ensures long { length parts.new ≡ length parts.old }
    {
        let seekers = self.seekers.as_slice();
        let number = number_at(seekers, self.usual, context, snapshot);
        let found = Found {
            seekers,
            context,
            snapshot,
            usual: self.usual,
            number,
        };
        add_all(alloc, &self.counters, &found, parts, from)
    }

    /// Adds the parts of a group that has no record at the end of a list.
    pub(crate) fn put_none(&self, alloc: Global, parts: &mut PartList) -> Result<(), OutOfMemory>
        ensures ok { OnOk result (parts.new
            ≡ parts.old ++ map (λ counter. part_over counter.kernel []) self.now.counters.items) }
        ensures err { OnErr result (parts.new ≡ parts.old) }
    {
        let count = parts.len();
        let put = put_each_none(alloc, parts, &self.counters);
        if put.is_err() {
            parts.truncate(count);
        }
        put
    }
}

fn counters_of(
    alloc: Global,
    seeds: Seeds,
    readings: &[Reading],
    seekers: &mut Vec<Seeker>,
) -> Result<Vec<Counter>, OutOfMemory>
    ensures counts { IfOk result (λ counters.
        AllZip (CountsFor (map sought seekers.new.items)) readings.now counters.items) }
    ensures more { OnOk result (SeekMore seekers.old.items seekers.new.items) }
{
    let mut counters = Vec::new(alloc);
    let mut known = IndexMap::with_hasher(alloc, seeds);
    for reading in readings {
        let counter = Counter::of(alloc, reading, seekers, &mut known)?;
        counters.push(counter)?;
    }
    Ok(counters)
}

/// The place that the last counter asks first.
fn usual_place(counters: &[Counter]) -> usize {
    match counters.last() {
        Some(counter) => counter.places.first().copied().unwrap_or(0),
        None => 0,
    }
}

/// Adds what is found in one record to parts, each counter to the part at its place behind `from`.
#[inline(always)]
fn add_all(
    alloc: Global,
    counters: &[Counter],
    found: &Found,
    parts: &mut PartList,
    from: usize,
) -> Result<(), OutOfMemory>
    requires within { IsWithin found.now }
    requires places { from + length counters.now ≤ length parts.old }
    ensures added { OnOk result ((rs : List AReading)
        → AllZip (CountsFor (sought_in found.now)) rs counters.now → IsReadyFound found.now
        → parts.new ≡ merged_from parts.old from (parts_by rs (record_of found.now))) }
    ensures long { length parts.new ≡ length parts.old }
{
    let _ = parts.len();
    for (place, counter) in counters.iter().enumerate() {
        counter.add_to(alloc, found, parts, from + place)?;
    }
    Ok(())
}

fn put_each_none(
    alloc: Global,
    parts: &mut PartList,
    counters: &[Counter],
) -> Result<(), OutOfMemory>
    ensures ok { OnOk result (parts.new
        ≡ parts.old ++ map (λ counter. part_over counter.kernel []) counters.now) }
    ensures front { take (length parts.old) parts.new ≡ parts.old }
{
    for counter in counters {
        parts.push(alloc, Part::none(counter.kernel))?;
    }
    Ok(())
}
