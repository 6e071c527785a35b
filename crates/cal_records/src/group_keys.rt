//! The keys of groups, with their entries lent.
ghost use Rattle.std.specs.Prelude.{◌≡◌, ℕ, ◌<◌, ◌∷◌, ◌++◌, [], IsTrue, filter, map, not, IfOk, OnOk};
ghost use Rattle.cal_context.specs.Children.{CanLink};
ghost use Rattle.cal_context.specs.Tree.{path_at};
ghost use Rattle.cal_engine.specs.Making.{group_count, key_at};
ghost use Rattle.cal_profile.specs.Groups.{is_result as is_result_of};
ghost use Rattle.cal_records.specs.Forks.{entry_by};
ghost use Rattle.cal_records.specs.Ranks.{entries_at, key_entries, key_entry};

use crate::sorting::Key;
use cal_context::{Context, Link, NodeNumber};
use cal_engine::GroupedRows;
use cal_ql::Agg;
use cal_value::OutOfMemory;
use std::alloc::Global;

/// The immediates of a group, without those that have the name of a result.
#[derive(Drop)]
pub(crate) struct GroupKeys<'a> {
    entries: Vec<Key<'a>>,
}

/// The immediates of each group, by its number, and none behind the last.
#[derive(Drop)]
pub(crate) struct AllKeys<'a> {
    none: Vec<Key<'a>>,
    each: Vec<GroupKeys<'a>>,
}

impl<'a> AllKeys<'a> {
    /// The immediates of the group of a number.
    pub(crate) fn at(&self, number: usize) -> &[Key<'a>]
        ensures { map key_entry result.now ≡ entries_at self.now number }
    {
        match self.each.get(number) {
            Some(own) => own.entries.as_slice(),
            None => self.none.as_slice(),
        }
    }
}

/// The immediates of groups. Where no group has any it takes no memory.
pub(crate) fn group_keys<'a>(
    alloc: Global,
    room: &'a Context,
    aggs: &[Agg],
    rows: &GroupedRows,
) -> Result<AllKeys<'a>, OutOfMemory>
    ensures { IfOk result (λ keys. (n : ℕ) → n < group_count rows.now
        → entries_at keys n ≡ key_entries room.now aggs.now (key_at rows.now n)) }
{
    room.has_each_once();
    let none = Vec::new(alloc);
    if have_no_immediates(rows) {
        let each = Vec::new(alloc);
        return Ok(AllKeys { none, each });
    }
    let mut each = Vec::with_capacity(alloc, rows.count())?;
    for number in 0..rows.count() {
        let entries = keys_of(alloc, room, aggs, rows.immediates(number))?;
        each.push(GroupKeys { entries })?;
    }
    Ok(AllKeys { none, each })
}

/// Whether no group has an immediate.
fn have_no_immediates(rows: &GroupedRows) -> bool
    ensures { IsTrue result → (n : ℕ) → n < group_count rows.now → (key_at rows.now n).imms.0 ≡ 0 }
{
    for number in 0..rows.count() {
        if rows.immediates(number).0 != 0 {
            return false;
        }
    }
    true
}

/// The entries of a node's path, without those that have the name of a result. A node that isn't
/// one of the context is answered as want of memory is.
fn keys_of<'a>(
    alloc: Global,
    room: &'a Context,
    aggs: &[Agg],
    node: NodeNumber,
) -> Result<Vec<Key<'a>>, OutOfMemory>
    ensures { IfOk result (λ keys. map key_entry keys.items
        ≡ filter (λ e. not (is_result_of aggs.now e)) (path_at room.now node)) }
{
    if node.0 as usize >= room.node_count() {
        return Err(OutOfMemory);
    }
    let mut keys = Vec::new(alloc);
    let mut node = node;
    while let Some(link) = room.link(node) {
        push_unless(aggs, &mut keys, key_of(room, link))?;
        node = link.parent;
    }
    keys.reverse();
    Ok(keys)
}

/// The entry of a link.
fn key_of(room: &Context, link: Link) -> Key<'_>
    requires { CanLink room.now link }
    ensures { key_entry result ≡ entry_by room.now link }
{
    Key {
        attr: room.attribute_at(link.attribute),
        value: room.value_at(link.value),
    }
}

/// Adds an entry, unless it has the name of a result.
fn push_unless<'a>(aggs: &[Agg], keys: &mut Vec<Key<'a>>, key: Key<'a>) -> Result<(), OutOfMemory>
    ensures { OnOk result (map key_entry keys.new.items ≡ map key_entry keys.old.items
        ++ filter (λ e. not (is_result_of aggs.now e)) (key_entry key.entry ∷ [])) }
{
    if !is_result(aggs, &key) {
        keys.push(key)?;
    }
    Ok(())
}

fn is_result(aggs: &[Agg], key: &Key) -> bool
    ensures { result ≡ is_result_of aggs.now (key_entry key.now) }
{
    aggs.iter()
        .any(|agg| agg.name.as_str() == key.attr.name.as_str())
}
