ghost use Rattle.std.specs.Prelude.{◌≡◌, ◌+◌, ◌≤◌, [], List, Some, length, map, max, slice_get};
ghost use Rattle.std.specs.Prelude.{IfOk, IsTrue, OnOk, OnErr};
ghost use Rattle.cal_context.specs.Lists.{Interns};
ghost use Rattle.cal_context.specs.Snapshots.{IsIn, meaning};
ghost use Rattle.cal_parts.specs.Counters.{AreReadyCounters};
ghost use Rattle.cal_parts.specs.PartLists.{put_parts};
ghost use Rattle.cal_parts.specs.Parts.{Gathered, merged_parts, part_over};
ghost use Rattle.cal_engine.specs.Numbered.{GathersKey};
ghost use Rattle.cal_parts.specs.Readings.{parts_of as parts_by};
ghost use Rattle.cal_parts.specs.declared.reading.Reading.{Reading as AReading};

use cal_context::{Context, NodeNumber, Snapshot};
use cal_keys::{GroupKey, KeyTable};
use cal_parts::{Counters, Part, PartTable};
use cal_seeds::Seeds;
use cal_value::OutOfMemory;
use std::alloc::Global;
use std::marker::Model;

/// Groups by numbers whose keys are numbers too, in first-seen order, and what is kept of each.
#[derive(Drop)]
pub(crate) struct NumberedGroups {
    keys: KeyTable,
    parts: PartTable,
    // the group that was last gathered, if any
    last: usize,
}

impl Model for NumberedGroups {
    ghost use Rattle.std.specs.Prelude.{◌≡◌, length};
    ghost use Rattle.cal_engine.specs.Numbered.{Numbered};

    ghost Value = { Numbered };

    ghost view = { λ s. record { keys = s.keys; parts = s.parts } };

    ghost invariant = { λ s. length s.parts ≡ length s.keys };
}

impl NumberedGroups {
    /// No group, where keys hash by these seeds. It takes no memory.
    pub fn new(alloc: Global, seeds: Seeds) -> NumberedGroups
        ensures { result ≡ record { keys = []; parts = [] } }
    {
        NumberedGroups {
            keys: KeyTable::new(alloc, seeds),
            parts: PartTable::new(alloc),
            last: 0,
        }
    }

    /// The node of the immediates of the group that was last gathered, or else the root.
    pub fn near(&self) -> NodeNumber {
        self.keys.imms(self.last)
    }

    /// Adds a record to its group. A key that is new is copied.
    #[tactic(auto, using(crate::proofs::Gathering::of_gathering))]
    pub fn gather(
        &mut self,
        alloc: Global,
        key: &GroupKey,
        counters: &Counters,
        context: &Context,
        snapshot: &Snapshot,
    ) -> Result<(), OutOfMemory>
        requires { IsIn context.now snapshot.now }
        ensures { OnOk result ((rs : List AReading)
            → AreReadyCounters context.now rs counters.now → GathersKey self.old key.now
            (parts_by rs (meaning context.now snapshot.now)) self.new) }
    {
        let count = self.keys.count();
        let number = self.keys.intern(alloc, key)?;
        self.last = number;
        let made = make_room(alloc, counters, &mut self.parts, number);
        if made.is_err() {
            self.keys.truncate(count);
            return made;
        }
        self.parts
            .add_at(alloc, number, counters, context, snapshot)
    }

    /// Puts what is kept of some records to the group of a key, behind what is there. A key that is
    /// new is copied.
    #[tactic(auto, using(crate::proofs::Gathering::of_gathering))]
    pub fn gather_parts(
        &mut self,
        alloc: Global,
        key: &GroupKey,
        parts: &[Part],
    ) -> Result<(), OutOfMemory>
        ensures { OnOk result (GathersKey self.old key.now parts.now self.new) }
    {
        let count = self.keys.count();
        let number = self.keys.intern(alloc, key)?;
        let put = put_at(alloc, &mut self.parts, number, parts);
        if put.is_err() {
            self.keys.truncate(count);
        }
        put
    }

    /// The keys of the groups.
    pub fn keys(&self) -> &KeyTable
        ensures { result.now ≡ self.now.keys }
    {
        let _ = &self.parts;
        &self.keys
    }

    /// What is kept of each group.
    pub fn parts(&self) -> &PartTable
        ensures parts { result.now ≡ self.now.parts }
        ensures counted { length result.now ≡ length self.now.keys }
    {
        let _ = &self.keys;
        &self.parts
    }
}

/// Puts the parts of no record at the end, where a number has none yet.
fn make_room(
    alloc: Global,
    counters: &Counters,
    parts: &mut PartTable,
    number: usize,
) -> Result<(), OutOfMemory>
    requires { number ≤ length parts.old }
    ensures put { OnOk result ((fresh : List Gathered)
        → merged_parts (map (λ counter. part_over counter.kernel []) counters.now.counters.items)
        fresh ≡ fresh
        → put_parts parts.new number fresh ≡ put_parts parts.old number fresh) }
    ensures long { OnOk result (length parts.new ≡ max (length parts.old) (number + 1)) }
    ensures err { OnErr result (parts.new ≡ parts.old) }
{
    if number < parts.count() {
        return Ok(());
    }
    parts.push_none(alloc, counters)
}

/// Puts parts behind those of a number, or at the end.
fn put_at(
    alloc: Global,
    table: &mut PartTable,
    number: usize,
    parts: &[Part],
) -> Result<(), OutOfMemory>
    requires { number ≤ length table.old }
    ensures ok { OnOk result (table.new ≡ put_parts table.old number parts.now) }
    ensures err { OnErr result (length table.new ≡ length table.old) }
{
    if number < table.count() {
        return table.merge_at(alloc, number, parts);
    }
    table.push(alloc, parts)
}
