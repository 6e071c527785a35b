ghost use Rattle.std.specs.Prelude.{◌≡◌, None, map, IfOk};
ghost use Rattle.std.specs.List.{last_or};
ghost use Rattle.std.specs.Option.{option_cmp, option_copied};
ghost use Rattle.cal_value.specs.Order.{value_cmp};
ghost use Rattle.cal_engine.specs.Ranks.{rank, value_in, values_cmp, values_of};
ghost use Rattle.cal_engine.specs.Sorting.{directed as directed_by, sorted_rows as sorted_by};
ghost use Rattle.cal_engine.specs.Sorting.{value_named};

use cal_parts::is_named;
use cal_ql::OrderKey;
use cal_value::{Entry, OutOfMemory, Rec, Seq, Text, TryCopy, Variant};
use std::alloc::Global;
use std::cmp::Ordering;

/// A row beside the values by which it is ordered, one for each key.
#[derive(Drop)]
pub(crate) struct Ranked {
    values: Seq<Option<Variant>>,
    row: Rec,
}

/// Rows sorted stably. It takes memory for their values, and n log n comparisons of these.
pub(crate) fn sorted_rows(
    alloc: Global,
    order: &Seq<OrderKey>,
    rows: Seq<Rec>,
) -> Result<Seq<Rec>, OutOfMemory>
    ensures { IfOk result (λ sorted. sorted ≡ sorted_by order.now rows) }
{
    if order.is_empty() {
        return Ok(rows);
    }
    let order = order.as_slice();
    let mut ranked = ranked_rows(alloc, order, rows)?;
    ranked.sort_by(|one, other| compare(order, &one.values, &other.values))?;
    rows_of(alloc, ranked)
}

fn ranked_rows(
    alloc: Global,
    order: &[OrderKey],
    rows: Seq<Rec>,
) -> Result<Vec<Ranked>, OutOfMemory>
    ensures { IfOk result (λ ranked. ranked.items ≡ map (rank order.now) rows) }
{
    let mut ranked = Vec::with_capacity(alloc, rows.len())?;
    for row in rows.into_vec() {
        let values = values_by(alloc, order, &row)?;
        ranked.push(Ranked { values, row })?;
    }
    Ok(ranked)
}

fn values_by(
    alloc: Global,
    order: &[OrderKey],
    row: &Rec,
) -> Result<Seq<Option<Variant>>, OutOfMemory>
    ensures { IfOk result (λ values. values ≡ map (λ key. value_named key.name row.now) order.now) }
{
    let mut values = Vec::with_capacity(alloc, order.len())?;
    for key in order {
        values.push(copied(alloc, last_value(&key.name, row))?)?;
    }
    Ok(Seq::from_vec(values))
}

/// A copy of a value that is there.
fn copied(alloc: Global, value: Option<&Variant>) -> Result<Option<Variant>, OutOfMemory>
    ensures { IfOk result (λ copied. copied ≡ option_copied value.entry) }
{
    match value {
        Some(value) => Ok(Some(value.copy(alloc)?)),
        None => Ok(None),
    }
}

/// The value of the last entry of a name.
fn last_value<'a>(name: &Text, row: &'a Rec) -> Option<&'a Variant>
    ensures { option_copied result ≡ value_named name.now row.now }
{
    let mut last = None;
    for path in row.paths.as_slice() {
        last = last_among(name, path.as_slice(), last);
    }
    last_among(name, row.imms.as_slice(), last)
}

/// The value of the last entry of a name among these, or else the one before.
fn last_among<'a>(
    name: &Text,
    entries: &'a [Entry],
    before: Option<&'a Variant>,
) -> Option<&'a Variant>
    ensures { option_copied result
        ≡ last_or (option_copied before.entry) (values_of name.now entries.now) }
{
    let mut last = before;
    for entry in entries {
        if is_named(name.as_str(), entry) {
            last = Some(&entry.value);
        }
    }
    last
}

fn rows_of(alloc: Global, ranked: Vec<Ranked>) -> Result<Seq<Rec>, OutOfMemory>
    ensures { IfOk result (λ rows. rows ≡ map (λ r. r.row) ranked.items) }
{
    let mut rows = Vec::with_capacity(alloc, ranked.len())?;
    for Ranked { values: _, row } in ranked {
        rows.push(row)?;
    }
    Ok(Seq::from_vec(rows))
}

/// The order of two rows by their values.
fn compare(order: &[OrderKey], one: &Seq<Option<Variant>>, other: &Seq<Option<Variant>>) -> Ordering
    ensures { result ≡ values_cmp order.now one.now other.now }
{
    for (place, key) in order.iter().enumerate() {
        let answer = compare_values(value_at(one, place), value_at(other, place));
        if answer != Ordering::Equal {
            return directed(key.down, answer);
        }
    }
    Ordering::Equal
}

fn value_at(values: &Seq<Option<Variant>>, place: usize) -> Option<&Variant>
    ensures { option_copied result ≡ value_in values.now place }
{
    values.get(place)?.as_ref()
}

/// An absent value comes first.
pub(crate) fn compare_values(one: Option<&Variant>, other: Option<&Variant>) -> Ordering
    ensures { result ≡ option_cmp value_cmp (option_copied one.entry) (option_copied other.entry) }
{
    match (one, other) {
        (None, None) => Ordering::Equal,
        (None, Some(_)) => Ordering::Less,
        (Some(_), None) => Ordering::Greater,
        (Some(one), Some(other)) => one.cmp(other),
    }
}

/// The other way round for DESC.
pub(crate) fn directed(down: bool, answer: Ordering) -> Ordering
    ensures { result ≡ directed_by down answer }
{
    if down { answer.reverse() } else { answer }
}
