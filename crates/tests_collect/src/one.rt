//! One table of the example.
ghost use Rattle.std.specs.Prelude.{◌≡◌, length};

use crate::example::{Given, rows, snapshot, snapshots};
use crate::looks::{all_hold, is_true, wrong_row};
use crate::shapes::{attributes, shape};
use cal_table::{AttributeNumbers, Table, TableShape};
use cal_value::{Attribute, OutOfMemory, Seq, TryCopy};
use std::alloc::Global;
use std::hash::RandomState;
use std::io;

/// Adds a snapshot by numbers to a table that stands for few.
pub(crate) fn add_numbered(
    alloc: Global,
    table: &mut Table,
    given: Given,
) -> Result<(), OutOfMemory>
    ensures { table.new.shape ≡ table.old.shape }
{
    let snap = snapshot(alloc, given)?;
    if table.snapshots() < 1000 {
        table.add_numbered(&snap)?;
    }
    Ok(())
}

/// Adds the snapshots of the example.
pub(crate) fn add_all(alloc: Global, table: &mut Table) -> Result<(), OutOfMemory>
    ensures { table.new.shape ≡ table.old.shape }
{
    let given = snapshots();
    for place in 0..given.len() {
        add_numbered(alloc, table, given[place])?;
    }
    Ok(())
}

fn wrong_numbered(alloc: Global, table: &mut Table) -> Result<Option<usize>, OutOfMemory> {
    add_all(alloc, table)?;
    if table.snapshots() != 8 {
        return Ok(Some(8));
    }
    wrong_row(alloc, table, rows(), 1)
}

// Adds a snapshot whose entries own their attributes to a table that stands for few.
fn add_named(
    alloc: Global,
    table: &mut Table,
    attrs: &Seq<Attribute>,
    numbers: &AttributeNumbers,
    given: Given,
) -> Result<(), OutOfMemory>
    requires same { numbers.now ≡ attrs.now }
    requires long { length attrs.now ≡ 4 }
{
    let snap = snapshot(alloc, given)?;
    let named = snap.named(alloc, attrs)?;
    if table.snapshots() < 1000 {
        table.add(&named, numbers)?;
    }
    Ok(())
}

fn wrong_named(
    alloc: Global,
    table: &mut Table,
    attrs: &Seq<Attribute>,
    numbers: &AttributeNumbers,
) -> Result<Option<usize>, OutOfMemory>
    requires same { numbers.now ≡ attrs.now }
    requires long { length attrs.now ≡ 4 }
{
    let given = snapshots();
    for place in 0..given.len() {
        add_named(alloc, table, attrs, numbers, given[place])?;
    }
    wrong_row(alloc, table, rows(), 1)
}

// Whether what is taken out of a table has its rows, and the table none.
fn is_taken(alloc: Global, table: &mut Table) -> Result<bool, OutOfMemory> {
    add_all(alloc, table)?;
    let taken = table.take()?;
    let wrong = wrong_row(alloc, &taken, rows(), 1);
    let many = taken.snapshots();
    drop(taken);
    Ok(wrong?.is_none() && many == 8 && table.snapshots() == 0 && table.rows().keys.is_empty())
}

// Whether the first key of a table is its copy.
fn is_copied(alloc: Global, table: &mut Table) -> Result<bool, OutOfMemory> {
    add_all(alloc, table)?;
    match table.rows().keys.first() {
        Some(key) => Ok(key.copy(alloc)? == *key),
        None => Ok(false),
    }
}

/// The shape of the example's tables.
pub(crate) fn shape_of(alloc: Global, hashers: RandomState) -> Result<TableShape, OutOfMemory> {
    let attrs = attributes(alloc)?;
    shape(alloc, hashers, &attrs)
}

// The table of no snapshot.
fn empty(alloc: Global, hashers: RandomState) -> Result<Table, OutOfMemory> {
    let shape = shape_of(alloc, hashers)?;
    Table::new(alloc, &shape)
}

fn numbered(alloc: Global, hashers: RandomState) -> Result<Option<usize>, OutOfMemory> {
    let mut table = empty(alloc, hashers)?;
    let wrong = wrong_numbered(alloc, &mut table);
    drop(table);
    wrong
}

fn named_by(
    alloc: Global,
    hashers: RandomState,
    attrs: &Seq<Attribute>,
    numbers: &AttributeNumbers,
) -> Result<Option<usize>, OutOfMemory>
    requires same { numbers.now ≡ attrs.now }
    requires long { length attrs.now ≡ 4 }
{
    let mut table = empty(alloc, hashers)?;
    let wrong = wrong_named(alloc, &mut table, attrs, numbers);
    drop(table);
    wrong
}

fn named(alloc: Global, hashers: RandomState) -> Result<Option<usize>, OutOfMemory> {
    let attrs = attributes(alloc)?;
    let numbers = AttributeNumbers::of(alloc, hashers, &attrs)?;
    let wrong = named_by(alloc, hashers, &attrs, &numbers);
    drop(numbers);
    drop(attrs);
    wrong
}

fn taken(alloc: Global, hashers: RandomState) -> Result<bool, OutOfMemory> {
    let mut table = empty(alloc, hashers)?;
    let is_right = is_taken(alloc, &mut table);
    drop(table);
    is_right
}

fn copied(alloc: Global, hashers: RandomState) -> Result<bool, OutOfMemory> {
    let mut table = empty(alloc, hashers)?;
    let is_right = is_copied(alloc, &mut table);
    drop(table);
    is_right
}

#[test]
fn snapshots_by_numbers_come_to_rows(rt: HostRuntime) -> io::Result<()> {
    let hashers = RandomState::new(&rt)?;
    all_hold(&rt, numbered(rt.alloc(), hashers));
    Ok(())
}

#[test]
fn snapshots_with_attributes_come_to_the_same(rt: HostRuntime) -> io::Result<()> {
    let hashers = RandomState::new(&rt)?;
    all_hold(&rt, named(rt.alloc(), hashers));
    Ok(())
}

#[test]
fn a_table_is_taken_whole(rt: HostRuntime) -> io::Result<()> {
    let hashers = RandomState::new(&rt)?;
    is_true(&rt, taken(rt.alloc(), hashers));
    Ok(())
}

#[test]
fn a_key_is_copied(rt: HostRuntime) -> io::Result<()> {
    let hashers = RandomState::new(&rt)?;
    is_true(&rt, copied(rt.alloc(), hashers));
    Ok(())
}
