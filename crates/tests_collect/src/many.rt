//! Sixty-four tables, merged into one.
ghost use Rattle.std.specs.Prelude.{◌≡◌, ◌<◌};

use crate::example::{rows, snapshots};
use crate::looks::{is_true, shows_all, wrong_row};
use crate::one::{add_all, add_numbered, shape_of};
use cal_table::{Table, TableShape};
use cal_value::OutOfMemory;
use std::alloc::Global;
use std::hash::RandomState;
use std::io;

// Adds two snapshots: those at the digits of a number below 64, in eights.
fn add_two(alloc: Global, table: &mut Table, number: usize) -> Result<(), OutOfMemory>
    requires { number < 64 }
    ensures { table.new.shape ≡ table.old.shape }
{
    let given = snapshots();
    let (Some(first), Some(second)) = (given.get(number / 8), given.get(number % 8)) else {
        return Ok(());
    };
    add_numbered(alloc, table, *first)?;
    add_numbered(alloc, table, *second)?;
    Ok(())
}

// Takes a table in, where both stand for few snapshots.
fn take_in(table: &mut Table, part: Table) -> Result<(), OutOfMemory>
    requires { part.shape ≡ table.old.shape }
    ensures { table.new.shape ≡ table.old.shape }
{
    if table.snapshots() > 1000 || part.snapshots() > 1000 {
        return Err(OutOfMemory);
    }
    match table.merge(part) {
        Ok(()) => Ok(()),
        Err(_back) => Err(OutOfMemory),
    }
}

// Merges a table of two snapshots into another one.
fn give(
    alloc: Global,
    table: &mut Table,
    shape: &TableShape,
    number: usize,
) -> Result<(), OutOfMemory>
    requires few { number < 64 }
    requires made { table.old.shape ≡ shape.now }
    ensures { table.new.shape ≡ table.old.shape }
{
    let mut part = Table::new(alloc, shape)?;
    add_two(alloc, &mut part, number)?;
    take_in(table, part)
}

// Merges sixty-four tables, in which each snapshot comes sixteen times.
fn merge_all(alloc: Global, table: &mut Table, shape: &TableShape) -> Result<(), OutOfMemory>
    requires { table.old.shape ≡ shape.now }
{
    for number in 0..64 {
        give(alloc, table, shape, number)?;
    }
    Ok(())
}

// One table to which each snapshot is added sixteen times.
fn add_sixteen(alloc: Global, table: &mut Table) -> Result<(), OutOfMemory> {
    for _time in 0..16 {
        add_all(alloc, table)?;
    }
    Ok(())
}

// Whether a table has all rows, with each snapshot sixteen times.
fn has_sixteen(alloc: Global, table: &Table) -> Result<bool, OutOfMemory> {
    Ok(wrong_row(alloc, table, rows(), 16)?.is_none() && table.snapshots() == 128)
}

// Whether the merge of all, and one table to which all is added, show the same.
fn are_alike(alloc: Global, merged: &Table, one: &mut Table) -> Result<bool, OutOfMemory> {
    add_sixteen(alloc, one)?;
    let alike = shows_all(merged, one) && shows_all(one, merged);
    Ok(alike && has_sixteen(alloc, merged)? && has_sixteen(alloc, one)?)
}

fn is_like_one(alloc: Global, merged: &Table, shape: &TableShape) -> Result<bool, OutOfMemory> {
    let mut one = Table::new(alloc, shape)?;
    let alike = are_alike(alloc, merged, &mut one);
    drop(one);
    alike
}

fn merge_and_look(
    alloc: Global,
    merged: &mut Table,
    shape: &TableShape,
) -> Result<bool, OutOfMemory>
    requires { merged.old.shape ≡ shape.now }
{
    merge_all(alloc, merged, shape)?;
    is_like_one(alloc, merged, shape)
}

fn merged_by(alloc: Global, shape: &TableShape) -> Result<bool, OutOfMemory> {
    let mut merged = Table::new(alloc, shape)?;
    let alike = merge_and_look(alloc, &mut merged, shape);
    drop(merged);
    alike
}

fn merged(alloc: Global, hashers: RandomState) -> Result<bool, OutOfMemory> {
    let shape = shape_of(alloc, hashers)?;
    let alike = merged_by(alloc, &shape);
    drop(shape);
    alike
}

#[test]
fn sixty_four_tables_merge_into_one(rt: HostRuntime) -> io::Result<()> {
    let hashers = RandomState::new(&rt)?;
    is_true(&rt, merged(rt.alloc(), hashers));
    Ok(())
}
