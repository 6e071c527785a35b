//! Rows in the order of their groups.
ghost use Rattle.std.specs.Prelude.{◌≡◌, ◌<◌, List, map, IfOk, IsTrue};
ghost use Rattle.std.specs.List.{All, range_with_len};
ghost use Rattle.cal_engine.specs.Making.{MakesRows};
ghost use Rattle.cal_engine.specs.Sorting.{sorted};
ghost use Rattle.cal_profile.specs.Groups.{rows_cmp};
ghost use Rattle.cal_records.specs.Ranks.{key_entry, numbers_cmp, order_of};
ghost use Rattle.cal_rowset.specs.Answers.{nth_row};
ghost use Rattle.cal_value.specs.Order.{entry_cmp, path_cmp};
ghost use Rattle.cal_value.specs.declared.record.Rec.{Rec as ARecord};

use crate::comparing::compare_paths;
use crate::group_keys::{AllKeys, group_keys};
use crate::likely::{likely_numbers, likely_places, likely_steps};
use crate::likely_key::likely_key;
use cal_context::Context;
use cal_engine::GroupedRows;
use cal_ql::Agg;
use cal_value::{Attribute, OutOfMemory, Variant};
use std::alloc::Global;
use std::cmp::Ordering;

/// An entry that is lent.
#[derive(Clone, Copy)]
pub(crate) struct Key<'a> {
    pub(crate) attr: &'a Attribute,
    pub(crate) value: &'a Variant,
}

/// The numbers of rows in the order of their groups. It takes memory and time for each node and
/// row, and compares siblings, and each row with the one before: a guess is tested. Where it is
/// wrong, as where a row has several nodes, it takes n log n comparisons of numbers, and of those
/// groups that are still out of order.
pub(crate) fn sorted_by_group(
    alloc: Global,
    context: &Context,
    aggs: &[Agg],
    rows: &GroupedRows,
) -> Result<Vec<u32>, OutOfMemory>
    ensures { IfOk result (λ numbers. (rs : List ARecord)
        → MakesRows context.now aggs.now rows.now rs
        → map (nth_row rs) numbers.items ≡ sorted (rows_cmp aggs.now) rs) }
{
    let room = rows.room(context);
    room.has_each_once();
    let keys = group_keys(alloc, room, aggs, rows)?;
    let steps = likely_steps(alloc, room, rows.count())?;
    let likely = likely_numbers(alloc, &steps, rows)?;
    if is_order(room, rows, &keys, &likely) {
        return Ok(likely);
    }
    let places = likely_places(alloc, &steps)?;
    sorted_numbers(alloc, room, rows, &keys, &places)
}

/// Whether these are the numbers of all rows in the order of their groups, no two of which are the
/// same.
fn is_order(room: &Context, rows: &GroupedRows, keys: &AllKeys, numbers: &[u32]) -> bool
    ensures { IsTrue result → numbers.now ≡ order_of room.now rows.now keys.now }
{
    let count = rows.count();
    if numbers.len() != count || !are_below(count, numbers) {
        return false;
    }
    numbers.is_sorted_by(|one, other| compare(room, rows, keys, *one, *other).is_lt())
}

/// The numbers of all rows in the order of their groups, after a sort by their likely places.
fn sorted_numbers(
    alloc: Global,
    room: &Context,
    rows: &GroupedRows,
    keys: &AllKeys,
    places: &[u32],
) -> Result<Vec<u32>, OutOfMemory>
    ensures { IfOk result (λ numbers. numbers.items ≡ order_of room.now rows.now keys.now) }
{
    room.has_each_once();
    let mut numbers = numbers_below(alloc, rows.count())?;
    numbers.sort_by_cached_key(|number| likely_key(room, places, rows.nodes(*number as usize)))?;
    numbers.sort_by(|one, other| compare(room, rows, keys, *one, *other))?;
    Ok(numbers)
}

fn are_below(count: usize, numbers: &[u32]) -> bool
    ensures { IsTrue result → All (λ n. n < count) numbers.now }
{
    numbers.iter().all(|number| (*number as usize) < count)
}

/// The numbers below this one.
fn numbers_below(alloc: Global, count: usize) -> Result<Vec<u32>, OutOfMemory>
    ensures { IfOk result (λ numbers. numbers.items ≡ range_with_len 0 count) }
{
    let mut numbers = Vec::with_capacity(alloc, count)?;
    for place in 0..count {
        let Ok(number) = u32::try_from(place) else {
            return Err(OutOfMemory);
        };
        numbers.push(number)?;
    }
    Ok(numbers)
}

fn compare(room: &Context, rows: &GroupedRows, keys: &AllKeys, one: u32, other: u32) -> Ordering
    ensures { result ≡ numbers_cmp room.now rows.now keys.now one other }
{
    match compare_paths(room, rows.nodes(one as usize), rows.nodes(other as usize)) {
        Ordering::Equal => compare_keys(keys.at(one as usize), keys.at(other as usize)),
        order => order,
    }
}

fn compare_keys(one: &[Key], other: &[Key]) -> Ordering
    ensures { result ≡ path_cmp (map key_entry one.now) (map key_entry other.now) }
{
    for place in 0..one.len() {
        if other.len() <= place {
            return Ordering::Greater;
        }
        let order = compare_entries(&one[place], &other[place]);
        if order != Ordering::Equal {
            return order;
        }
    }
    if one.len() < other.len() {
        Ordering::Less
    } else {
        Ordering::Equal
    }
}

fn compare_entries(one: &Key, other: &Key) -> Ordering
    ensures { result ≡ entry_cmp (key_entry one.now) (key_entry other.now) }
{
    match one.attr.cmp(other.attr) {
        Ordering::Equal => one.value.cmp(other.value),
        order => order,
    }
}
