//! What the rows of tables show.

use crate::example::{Wanted, key_of};
use cal_agg::{AggRow, Kernel, Num};
use cal_table::{Table, TableKey, TableRows};
use cal_value::OutOfMemory;
use std::alloc::Global;
use std::process::Abort;

/// How many snapshots a row counts, and of their times the sum, the least and the greatest.
#[derive(Clone, Copy, PartialEq)]
struct Figures {
    count: Option<Num>,
    sum: Option<Num>,
    least: Option<Num>,
    greatest: Option<Num>,
}

/// What a row of one cell shows.
fn shown(held: &AggRow) -> Option<Figures> {
    let cell = held.cells.as_slice().get(0)?;
    Some(Figures {
        count: held.count.value(),
        sum: cell.sum().value(),
        least: cell.least().value(),
        greatest: cell.greatest().value(),
    })
}

/// What a row is to show where each of its snapshots came so many times.
fn wanted_of(wanted: &Wanted, times: i128) -> Figures {
    let count = Some(Num::Whole(wanted.3.wrapping_mul(times)));
    match wanted.4 {
        Some((sum, least, greatest)) => Figures {
            count,
            sum: Some(Num::Whole(sum.wrapping_mul(times))),
            least: Some(Num::Whole(least)),
            greatest: Some(Num::Whole(greatest)),
        },
        None => Figures {
            count,
            sum: None,
            least: None,
            greatest: None,
        },
    }
}

/// What the row of a key shows.
fn shown_of(rows: TableRows<'_>, key: &TableKey) -> Option<Figures> {
    for place in 0..rows.keys.len() {
        if rows.keys[place] == *key {
            return shown(rows.held.get(place)?);
        }
    }
    None
}

fn has_row(
    alloc: Global,
    table: &Table,
    wanted: &Wanted,
    times: i128,
) -> Result<bool, OutOfMemory> {
    let key = key_of(alloc, (wanted.0, wanted.1, wanted.2))?;
    Ok(shown_of(table.rows(), &key) == Some(wanted_of(wanted, times)))
}

/// The first row that a table doesn't show, where each snapshot came so many times. It is one
/// behind the last where the table has other rows too.
pub(crate) fn wrong_row(
    alloc: Global,
    table: &Table,
    wanted: &[Wanted],
    times: i128,
) -> Result<Option<usize>, OutOfMemory> {
    for row in 0..wanted.len() {
        if !has_row(alloc, table, &wanted[row], times)? {
            return Ok(Some(row));
        }
    }
    let more = table.rows().keys.len() != wanted.len();
    Ok(more.then_some(wanted.len()))
}

/// Whether each row of a table stands in another one, and shows the same there.
pub(crate) fn shows_all(table: &Table, other: &Table) -> bool {
    let rows = table.rows();
    for place in 0..rows.keys.len() {
        if shown_of(other.rows(), &rows.keys[place]) != shown_of(rows, &rows.keys[place]) {
            return false;
        }
    }
    true
}

/// No row of a table is wrong, and the memory was enough.
pub(crate) fn all_hold(rt: &impl Abort, wrong: Result<Option<usize>, OutOfMemory>) {
    assert_eq!(rt; wrong, Ok(None), "the first wrong row");
}

/// It is so, and the memory was enough.
pub(crate) fn is_true(rt: &impl Abort, answer: Result<bool, OutOfMemory>) {
    assert_eq!(rt; answer, Ok(true));
}
