ghost use Rattle.std.specs.Prelude.{◌≡◌, ◌≤◌, ◌++◌, List, fold, length, map, IfOk, OnOk, OnErr};
ghost use Rattle.cal_ql.specs.declared.query.Query.{Query as AQuery};
ghost use Rattle.cal_value.specs.declared.record.Rec.{Rec as ARecord};
ghost use Rattle.cal_keys.specs.Groups.{groups_of};
ghost use Rattle.cal_engine.specs.Rows.{row_of as row_by};
ghost use Rattle.cal_engine.specs.Folding.{groups_over, no_groups, Gathers};
ghost use Rattle.cal_parts.specs.PartLists.{put_parts};
ghost use Rattle.std.specs.Option.{option_copied};
ghost use Rattle.cal_parts.specs.Parts.{behind, merged_parts as merged_by_place};

use crate::finishing::group_rows;
use cal_context::Interner;
use cal_parts::{Part, PartTable};
use cal_ql::Query;
use cal_value::{OutOfMemory, Rec, Seq, TryCopy};
use std::alloc::Global;
use std::marker::Model;
use std::mem;

/// Groups by numbers, in first-seen order, and what is kept of the records of each.
#[derive(Drop)]
pub(crate) struct Groups {
    keys: Interner<Rec>,
    parts: Vec<Seq<Part>>,
}

impl Model for Groups {
    ghost use Rattle.std.specs.Prelude.{◌≡◌, length};
    ghost use Rattle.cal_engine.specs.Folding.{Grouped};

    ghost Value = { Grouped };

    ghost view = { λ s. record { keys = s.keys; parts = s.parts.items } };

    ghost invariant = { λ s. length s.parts.items ≡ length s.keys };
}

impl Groups {
    /// No group. It takes no memory.
    pub fn new(alloc: Global) -> Groups
        ensures { result ≡ no_groups }
    {
        Groups {
            keys: Interner::new(alloc),
            parts: Vec::new(alloc),
        }
    }

    #[tactic(auto, using(crate::proofs::Gathering::of_gathering))]
    /// Puts what is kept of some records to their group, behind what is there.
    pub fn gather(&mut self, alloc: Global, key: Rec, fresh: Seq<Part>) -> Result<(), OutOfMemory>
        ensures ok { OnOk result (Gathers self.old key fresh self.new) }
        ensures err { OnErr result (self.new ≡ self.old) }
    {
        let count = self.keys.as_slice().len();
        let number = self.keys.intern(key)? as usize;
        let put = put(alloc, &mut self.parts, number, fresh);
        if put.is_err() {
            self.keys.truncate(count);
        }
        put
    }
    /// Puts what is kept of the records of other groups behind, in the order of those groups.
    pub fn gather_all(&mut self, alloc: Global, other: &Groups) -> Result<(), OutOfMemory>
        ensures { OnOk result ((q : AQuery) (rs ss : List ARecord) → self.old ≡ groups_over q rs
            → other.now ≡ groups_over q ss → self.new ≡ groups_over q (rs ++ ss)) }
    {
        for (number, key) in other.keys.as_slice().iter().enumerate() {
            let parts = other.parts[number].copy(alloc)?;
            self.gather(alloc, key.copy(alloc)?, parts)?;
        }
        Ok(())
    }

    /// The groups of two folds, taken together.
    pub fn merged(alloc: Global, one: &Groups, other: &Groups) -> Result<Groups, OutOfMemory>
        ensures { IfOk result (λ merged. (q : AQuery) (rs ss : List ARecord)
            → one.now ≡ groups_over q rs → other.now ≡ groups_over q ss
            → merged ≡ groups_over q (rs ++ ss)) }
    {
        let mut merged = Groups::new(alloc);
        merged.gather_all(alloc, one)?;
        merged.gather_all(alloc, other)?;
        Ok(merged)
    }

    /// The rows of the groups.
    pub fn rows(&self, alloc: Global, query: &Query) -> Result<Seq<Rec>, OutOfMemory>
        ensures { IfOk result (λ rows. (rs : List ARecord) → self.now ≡ groups_over query.now rs
            → rows ≡ map (row_by query.now rs) (groups_of query.now.group rs)) }
    {
        let keys = copies(alloc, self.keys.as_slice())?;
        group_rows(alloc, query, keys, &self.parts)
    }
}

fn copies(alloc: Global, keys: &[Rec]) -> Result<Vec<Rec>, OutOfMemory>
    ensures { IfOk result (λ copies. copies.items ≡ keys.now) }
{
    let mut copies = Vec::with_capacity(alloc, keys.len())?;
    for key in keys {
        copies.push(key.copy(alloc)?)?;
    }
    Ok(copies)
}

/// Parts taken together.
pub(crate) fn total(
    alloc: Global,
    parts: &PartTable,
    none: &Seq<Part>,
) -> Result<Seq<Part>, OutOfMemory>
    ensures { IfOk result (λ total. total ≡ fold merged_by_place none.now parts.now) }
{
    let mut total = none.copy(alloc)?;
    for number in 0..parts.count() {
        let own = parts.at(alloc, number)?;
        merge_into(alloc, &mut total, &own)?;
    }
    Ok(total)
}

/// Puts parts behind those of a number, or at the end.
#[tactic(auto, using(crate::proofs::Gathering::of_putting))]
pub(crate) fn put(
    alloc: Global,
    parts: &mut Vec<Seq<Part>>,
    number: usize,
    fresh: Seq<Part>,
) -> Result<(), OutOfMemory>
    requires { number ≤ length parts.old.items }
    ensures ok { OnOk result (parts.new.items ≡ put_parts parts.old.items number fresh) }
    ensures err { OnErr result (parts.new.items ≡ parts.old.items) }
{
    if number < parts.len() {
        let merged = merged_parts(alloc, &parts[number], &fresh)?;
        parts[number] = merged;
    } else {
        parts.push(fresh)?;
    }
    Ok(())
}

/// Merges parts into others place by place, where these are. What is left of them after an `Err`
/// isn't promised.
pub(crate) fn merge_into(
    alloc: Global,
    parts: &mut Seq<Part>,
    fresh: &[Part],
) -> Result<(), OutOfMemory>
    ensures { OnOk result (parts.new ≡ merged_by_place parts.old fresh.now) }
{
    let mut merged = mem::replace(parts, Seq::new(alloc)).into_vec();
    // no place beyond the others stays
    merged.truncate(fresh.len());
    merge_all(&mut merged, fresh)?;
    *parts = Seq::from_vec(merged);
    Ok(())
}

fn merge_all(parts: &mut Vec<Part>, fresh: &[Part]) -> Result<(), OutOfMemory>
    requires { length parts.old.items ≤ length fresh.now }
    ensures { OnOk result (parts.new.items ≡ merged_by_place parts.old.items fresh.now) }
{
    for (place, part) in fresh.iter().enumerate() {
        if place < parts.len() {
            parts[place].merge(part)?;
        } else {
            parts.push(part.twin())?;
        }
    }
    Ok(())
}

/// Parts merged place by place.
pub(crate) fn merged_parts(
    alloc: Global,
    parts: &Seq<Part>,
    fresh: &Seq<Part>,
) -> Result<Seq<Part>, OutOfMemory>
    ensures { IfOk result (λ merged. merged ≡ merged_by_place parts.now fresh.now) }
{
    let mut merged = Vec::with_capacity(alloc, fresh.len())?;
    for (place, part) in fresh.as_slice().iter().enumerate() {
        merged.push(merged_part(parts.get(place), part)?)?;
    }
    Ok(Seq::from_vec(merged))
}

/// A part behind another, if there is one.
fn merged_part(part: Option<&Part>, fresh: &Part) -> Result<Part, OutOfMemory>
    ensures { IfOk result (λ merged. merged ≡ behind (option_copied part.entry) fresh.now) }
{
    match part {
        None => Ok(fresh.twin()),
        Some(part) => {
            let mut merged = part.twin();
            merged.merge(fresh)?;
            Ok(merged)
        }
    }
}
