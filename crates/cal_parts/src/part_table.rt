ghost use Rattle.std.specs.Prelude.{◌≡◌, ◌+◌, ◌<◌, ◌≤◌, ◌++◌, [], ◌∷◌, List, length, map};
ghost use Rattle.std.specs.Prelude.{IfOk, IfSome, OnOk, OnErr};
ghost use Rattle.std.specs.Prelude.{slice_get, slice_index_or, take};
ghost use Rattle.cal_context.specs.Snapshots.{IsIn, meaning};
ghost use Rattle.cal_parts.specs.Counters.{AreReadyCounters};
ghost use Rattle.cal_parts.specs.PartLists.{put_parts};
ghost use Rattle.cal_parts.specs.PartLists.{merged_from};
ghost use Rattle.cal_parts.specs.Parts.{part_over};
ghost use Rattle.cal_parts.specs.Readings.{parts_of as parts_by};
ghost use Rattle.cal_parts.specs.Shown.{ComesTo};
ghost use Rattle.cal_parts.specs.declared.reading.Reading.{Reading as AReading};

use crate::counters::Counters;
use crate::part::Part;
use crate::part_list::PartList;
use crate::reading::push_some;
use cal_context::{Context, Snapshot};
use cal_ql::KernelName;
use cal_value::{OutOfMemory, Seq};
use std::alloc::Global;
use std::marker::Model;

/// What is kept of groups by number, all in one block of memory: of each group as many parts as the
/// table is wide.
#[derive(Drop)]
pub struct PartTable {
    parts: PartList,
    width: usize,
    count: usize,
}

impl Model for PartTable {
    ghost use Rattle.std.specs.Prelude.{◌≡◌, ◌*◌, List, length};
    ghost use Rattle.std.specs.Simd.{first_chunks};
    ghost use Rattle.cal_parts.specs.Parts.{Gathered};

    ghost Value = { List (List Gathered) };

    ghost view = { λ s. first_chunks s.width s.count s.parts };

    ghost invariant = { λ s. length s.parts ≡ s.count * s.width };
}

impl PartTable {
    /// No group. It takes no memory.
    pub fn new(alloc: Global) -> PartTable
        ensures { result ≡ [] }
    {
        PartTable {
            parts: PartList::new(alloc),
            width: 0,
            count: 0,
        }
    }

    /// Copies of what is kept of groups, which is answered as want of memory is where one has
    /// another number of parts.
    pub fn of(alloc: Global, groups: &[Seq<Part>]) -> Result<PartTable, OutOfMemory>
        ensures { IfOk result (λ table. table ≡ groups.now) }
    {
        let mut table = PartTable::new(alloc);
        for parts in groups {
            table.push(alloc, parts.as_slice())?;
        }
        Ok(table)
    }

    /// How many groups there are.
    pub fn count(&self) -> usize
        ensures { result ≡ length self.now }
    {
        let _ = &self.parts;
        self.count
    }

    /// What is kept of the group of a number.
    pub fn at(&self, alloc: Global, number: usize) -> Result<Vec<Part>, OutOfMemory>
        ensures { IfOk result (λ parts. parts.items ≡ slice_index_or self.now number []) }
    {
        let mut parts = Vec::new(alloc);
        for place in 0..self.width {
            push_some(&mut parts, self.get(number, place))?;
        }
        Ok(parts)
    }

    /// The part at a place of the group of a number.
    #[inline(always)]
    pub fn get(&self, number: usize, place: usize) -> Option<Part>
        ensures { result ≡ slice_get (slice_index_or self.now number []) place }
    {
        let _ = self.parts.len();
        if number >= self.count || place >= self.width {
            return None;
        }
        self.parts.get(number * self.width + place)
    }

    /// What a kernel comes to at a place of the group of a number, where that is a number which
    /// stands there.
    #[inline(always)]
    pub fn shown(&self, number: usize, place: usize, kernel: KernelName) -> Option<i64>
        ensures { IfSome result
            (ComesTo kernel (slice_get (slice_index_or self.now number []) place)) }
    {
        let _ = self.parts.len();
        if number >= self.count || place >= self.width {
            return None;
        }
        self.parts.shown(number * self.width + place, kernel)
    }

    /// Adds a group at the end. One of another number of parts is answered as want of memory is.
    pub fn push(&mut self, alloc: Global, parts: &[Part]) -> Result<(), OutOfMemory>
        ensures ok { OnOk result (self.new ≡ self.old ++ parts.now ∷ []) }
        ensures err { OnErr result (self.new ≡ self.old) }
    {
        let Some(count) = self.count.checked_add(1) else {
            return Err(OutOfMemory);
        };
        let width = parts.len();
        if self.count > 0 && self.width != width {
            return Err(OutOfMemory);
        }
        put_all(alloc, &mut self.parts, parts)?;
        self.width = width;
        self.count = count;
        Ok(())
    }

    /// Adds a group of no record at the end.
    pub fn push_none(&mut self, alloc: Global, counters: &Counters) -> Result<(), OutOfMemory>
        ensures ok { OnOk result (self.new
            ≡ self.old ++ map (λ counter. part_over counter.kernel []) counters.now.counters.items
            ∷ []) }
        ensures err { OnErr result (self.new ≡ self.old) }
    {
        let Some(count) = self.count.checked_add(1) else {
            return Err(OutOfMemory);
        };
        let width = counters.len();
        if self.count > 0 && self.width != width {
            return Err(OutOfMemory);
        }
        counters.put_none(alloc, &mut self.parts)?;
        self.width = width;
        self.count = count;
        Ok(())
    }

    /// Adds a record to the group of a number. What is left of the group after an `Err` isn't
    /// promised.
    pub fn add_at(
        &mut self,
        alloc: Global,
        number: usize,
        counters: &Counters,
        context: &Context,
        snapshot: &Snapshot,
    ) -> Result<(), OutOfMemory>
        requires within { IsIn context.now snapshot.now }
        requires number { number < length self.old }
        ensures ok { OnOk result ((rs : List AReading)
            → AreReadyCounters context.now rs counters.now → self.new
            ≡ put_parts self.old number (parts_by rs (meaning context.now snapshot.now))) }
        ensures long { length self.new ≡ length self.old }
    {
        let _ = self.parts.len();
        let width = counters.len();
        if width != self.width {
            return Err(OutOfMemory);
        }
        let from = number * self.width;
        counters.add_record(alloc, context, snapshot, &mut self.parts, from)
    }

    /// Takes parts in behind those of the group of a number. Another number of parts is answered as
    /// want of memory is. What is left of the group after an `Err` isn't promised.
    pub fn merge_at(
        &mut self,
        alloc: Global,
        number: usize,
        parts: &[Part],
    ) -> Result<(), OutOfMemory>
        requires { number < length self.old }
        ensures ok { OnOk result (self.new ≡ put_parts self.old number parts.now) }
        ensures long { length self.new ≡ length self.old }
    {
        let _ = self.parts.len();
        let width = parts.len();
        if width != self.width {
            return Err(OutOfMemory);
        }
        let from = number * self.width;
        merge_from(alloc, &mut self.parts, from, parts)
    }
}

/// Takes parts in behind those of a list, each behind the one at its place behind `from`.
fn merge_from(
    alloc: Global,
    list: &mut PartList,
    from: usize,
    parts: &[Part],
) -> Result<(), OutOfMemory>
    requires { from + length parts.now ≤ length list.old }
    ensures merged { OnOk result (list.new ≡ merged_from list.old from parts.now) }
    ensures long { length list.new ≡ length list.old }
{
    let _ = list.len();
    for (place, part) in parts.iter().enumerate() {
        list.merge(alloc, from + place, part)?;
    }
    Ok(())
}

/// Adds parts at the end of a list.
fn put_all(alloc: Global, list: &mut PartList, parts: &[Part]) -> Result<(), OutOfMemory>
    ensures ok { OnOk result (list.new ≡ list.old ++ parts.now) }
    ensures err { OnErr result (list.new ≡ list.old) }
{
    let count = list.len();
    let put = put_each(alloc, list, parts);
    if put.is_err() {
        list.truncate(count);
    }
    put
}

fn put_each(alloc: Global, list: &mut PartList, parts: &[Part]) -> Result<(), OutOfMemory>
    ensures ok { OnOk result (list.new ≡ list.old ++ parts.now) }
    ensures front { take (length list.old) list.new ≡ list.old }
{
    for part in parts {
        list.push(alloc, part.twin())?;
    }
    Ok(())
}
