//! Snapshots that are added to a table, beside a plain hash map of their keys.
ghost use Rattle.std.specs.Prelude.{◌≡◌, ◌<◌, IfOk, OnOk, All};
ghost use Rattle.cal_table.specs.Snapshots.{HasNumberOf64};

use crate::plain_table::{PlainKey, PlainRow, add_plain};
use anyhow::Result;
use cal_snap::{NumberedEntry, NumberedSnap};
use cal_table::{Table, TableShape};
use cal_value::{OutOfMemory, Seq, Variant};
use cal_words::NodeId;
use std::alloc::Global;
use std::collections::HashMap;
use std::hash::RandomState;
use std::random::RandomSource;
use std::rt::Clock;
use std::time::Instant;

/// How many snapshots are added.
pub const SNAPSHOTS: u32 = 1_000_000;

/// Times a million snapshots that are added to a table, in a thousand and in a million groups, and
/// the same snapshots in a plain hash map of keys, in turn.
pub fn measure(rt: &(impl Clock + Print + AllocGlobal + RandomSource)) -> Result<()> {
    let hashers = RandomState::new(rt)?;
    time_groups(rt, hashers, 1_000)?;
    time_groups(rt, hashers, 1_000_000)
}

fn time_groups(
    rt: &(impl Clock + Print + AllocGlobal),
    hashers: RandomState,
    groups: u32,
) -> Result<()>
    requires { 0 < groups }
{
    for _round in 0..3 {
        by_table(rt, hashers, groups)?;
        by_map(rt, hashers, groups)?;
    }
    Ok(())
}

// The shape by which the first attribute is a key, and the second one the value attribute.
fn shape(alloc: Global, hashers: RandomState) -> Result<TableShape, OutOfMemory> {
    let keys = Vec::from_slice(alloc, [true, false].as_slice())?;
    let times = Vec::from_slice(alloc, [false, true].as_slice())?;
    let mut values = Seq::new(alloc);
    values.push(Seq::from_vec(times))?;
    Ok(TableShape {
        keys: Seq::from_vec(keys),
        values,
        hashers,
    })
}

/// The group of the snapshot of a number. Those of numbers in a row are far from each other.
pub fn group_of(number: u32, groups: u32) -> u32
    requires { 0 < groups }
{
    (u64::from(number) * 7919 % u64::from(groups)) as u32
}

// Becomes the snapshot of a number: ten groups have one node.
fn renew(snap: &mut NumberedSnap, number: u32, groups: u32) -> Result<(), OutOfMemory>
    requires { 0 < groups }
    ensures { OnOk result (All HasNumberOf64 snap.new.imms.items) }
{
    let group = group_of(number, groups);
    snap.clear();
    snap.refs.push(NodeId(group / 10))?;
    snap.imms.push(entry(0, group % 10))?;
    snap.imms.push(entry(1, number))?;
    Ok(())
}

fn entry(attribute: u32, number: u32) -> NumberedEntry
    ensures { HasNumberOf64 result }
{
    NumberedEntry {
        attribute,
        value: Variant::Uint(u64::from(number)),
    }
}

fn fill(table: &mut Table, snap: &mut NumberedSnap, groups: u32) -> Result<(), OutOfMemory>
    requires none { table.old.snapshots ≡ 0 }
    requires groups { 0 < groups }
    ensures { OnOk result (table.new.snapshots ≡ SNAPSHOTS) }
{
    for number in 0..SNAPSHOTS {
        renew(snap, number, groups)?;
        table.add_numbered(snap)?;
    }
    Ok(())
}

// Fills a table, and says how long that took.
fn time_table(
    rt: &(impl Clock + Print),
    table: &mut Table,
    snap: &mut NumberedSnap,
    groups: u32,
) -> Result<()>
    requires none { table.old.snapshots ≡ 0 }
    requires groups { 0 < groups }
{
    let begun = Instant::now(rt)?;
    fill(table, snap, groups)?;
    let took = begun.elapsed(rt)?.as_millis();
    println!(rt; "a table: {took} ms for {} groups", table.rows().keys.len())?;
    Ok(())
}

fn empty(alloc: Global, hashers: RandomState) -> Result<Table, OutOfMemory>
    ensures { IfOk result (λ table. table.snapshots ≡ 0) }
{
    let shape = shape(alloc, hashers)?;
    let table = Table::new(alloc, &shape);
    drop(shape);
    table
}

fn by_table(
    rt: &(impl Clock + Print + AllocGlobal),
    hashers: RandomState,
    groups: u32,
) -> Result<()>
    requires { 0 < groups }
{
    let mut table = empty(rt.alloc(), hashers)?;
    let mut snap = NumberedSnap::new(rt.alloc());
    let timed = time_table(rt, &mut table, &mut snap, groups);
    drop(snap);
    drop(table);
    timed
}

fn fill_map(
    alloc: Global,
    map: &mut HashMap<PlainKey, PlainRow, RandomState>,
    snap: &mut NumberedSnap,
    groups: u32,
) -> Result<(), OutOfMemory>
    requires { 0 < groups }
{
    let mut draft = PlainKey::new(alloc);
    for number in 0..SNAPSHOTS {
        renew(snap, number, groups)?;
        add_plain(alloc, map, &mut draft, snap)?;
    }
    Ok(())
}

// Fills a map, and says how long that took.
fn time_map(
    rt: &(impl Clock + Print + AllocGlobal),
    map: &mut HashMap<PlainKey, PlainRow, RandomState>,
    snap: &mut NumberedSnap,
    groups: u32,
) -> Result<()>
    requires { 0 < groups }
{
    let begun = Instant::now(rt)?;
    fill_map(rt.alloc(), map, snap, groups)?;
    let took = begun.elapsed(rt)?.as_millis();
    println!(rt; "a plain map: {took} ms for {} groups", map.len())?;
    Ok(())
}

fn by_map(rt: &(impl Clock + Print + AllocGlobal), hashers: RandomState, groups: u32) -> Result<()>
    requires { 0 < groups }
{
    let mut map = HashMap::with_hasher(rt.alloc(), hashers);
    let mut snap = NumberedSnap::new(rt.alloc());
    let timed = time_map(rt, &mut map, &mut snap, groups);
    drop(snap);
    drop(map);
    timed
}
