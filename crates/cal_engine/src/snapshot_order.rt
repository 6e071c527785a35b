ghost use Rattle.std.specs.Prelude.{◌≡◌, ◌≤◌, map, IfOk};
ghost use Rattle.std.specs.List.{All};
ghost use Rattle.std.specs.Option.{option_copied};
ghost use Rattle.cal_filter.specs.Known.{KnowsAll, sought};
ghost use Rattle.cal_filter.specs.Sought.{any_of, value_sought};
ghost use Rattle.cal_rowset.specs.NumberedRows.{IsWithin, in_order, meant, nth_numbered};
ghost use Rattle.cal_value.specs.Flat.{flat};
ghost use Rattle.cal_engine.specs.Ranks.{value_in, values_cmp};
ghost use Rattle.cal_engine.specs.SnapshotRanks.{AreRanked, others_in, ranked_values};
ghost use Rattle.cal_engine.specs.Sorting.{sorted_rows};

use crate::sorting::{compare_values, directed};
use cal_context::Context;
use cal_filter::Seeker;
use cal_ql::OrderKey;
use cal_rowset::SnapshotList;
use cal_value::{OutOfMemory, Seq, TryCopy, Variant};
use std::alloc::Global;
use std::cmp::Ordering;

/// The place of a row beside the values by which it is ordered: that of the first key, and those of
/// the others, if there are any.
#[derive(Drop)]
pub(crate) struct RankedPlace<'a> {
    first: Option<&'a Variant>,
    others: Vec<Option<&'a Variant>>,
    place: usize,
}

/// So many values are looked for at once, or those of four keys: for each key one by each node of
/// the context, and one beside each row.
const VALUES_AT_ONCE: usize = 1 << 22;

/// The places of rows by number, sorted stably. However many keys there are, it takes memory for
/// the places of the rows and the nodes of the context a few times over, or for `VALUES_AT_ONCE`:
/// the rows are sorted by the last keys first, and then stably by those before. No value is copied.
pub(crate) fn sorted_places(
    alloc: Global,
    order: &Seq<OrderKey>,
    context: &Context,
    rows: &SnapshotList,
) -> Result<Vec<usize>, OutOfMemory>
    requires { All (IsWithin context.now) rows.now }
    ensures { IfOk result (λ places. map (meant context.now) (in_order rows.now places.items)
        ≡ sorted_rows order.now (map (meant context.now) rows.now)) }
{
    let keys = order.as_slice();
    let mut places = all_places(alloc, rows)?;
    let at_once = keys_at_once(context.node_count(), rows.len());
    let mut left = keys.len();
    while left > 0 {
        let from = left.saturating_sub(at_once);
        let (before, _) = keys.split_at(left);
        let (_, last) = before.split_at(from);
        places = sorted_by(alloc, last, context, rows, places)?;
        left = from;
    }
    Ok(places)
}

/// How many keys have their values looked for at once, over so many nodes and rows.
fn keys_at_once(nodes: usize, rows: usize) -> usize
    ensures { 1 ≤ result }
{
    (VALUES_AT_ONCE / nodes.saturating_add(rows).max(1)).max(4)
}

/// Places of rows, sorted stably by some keys.
fn sorted_by(
    alloc: Global,
    order: &[OrderKey],
    context: &Context,
    rows: &SnapshotList,
    places: Vec<usize>,
) -> Result<Vec<usize>, OutOfMemory>
    requires { All (IsWithin context.now) rows.now }
    ensures { IfOk result (λ sorted. map (meant context.now) (in_order rows.now sorted.items)
        ≡ sorted_rows order.now (map (meant context.now) (in_order rows.now places.items))) }
{
    let seekers = seekers_of(alloc, order, context)?;
    let Some((first, others)) = seekers.split_first() else {
        return Ok(places);
    };
    let mut ranked = ranked_places(alloc, first, others, context, rows, &places)?;
    ranked.sort_by(|one, other| compare_ranked(order, one, other))?;
    let sorted = places_of(alloc, &ranked)?;
    Ok(sorted)
}

/// The places of all rows, as they lie.
fn all_places(alloc: Global, rows: &SnapshotList) -> Result<Vec<usize>, OutOfMemory>
    ensures { IfOk result (λ places. in_order rows.now places.items ≡ rows.now) }
{
    let mut places = Vec::with_capacity(alloc, rows.len())?;
    for place in 0..rows.len() {
        places.push(place)?;
    }
    Ok(places)
}

/// Who looks for the values of keys, and knows the context.
fn seekers_of(
    alloc: Global,
    order: &[OrderKey],
    context: &Context,
) -> Result<Vec<Seeker>, OutOfMemory>
    ensures sought { IfOk result (λ seekers.
        map sought seekers.items ≡ map (λ key. any_of key.name) order.now) }
    ensures knows { IfOk result (λ seekers. All (KnowsAll context.now) seekers.items) }
{
    let mut seekers = Vec::with_capacity(alloc, order.len())?;
    for key in order {
        let mut seeker = Seeker::of_any(alloc, key.name.copy(alloc)?);
        seeker.catch_up(context)?;
        seekers.push(seeker)?;
    }
    Ok(seekers)
}

/// Places of rows beside the values of these.
fn ranked_places<'a>(
    alloc: Global,
    first: &Seeker,
    others: &[Seeker],
    context: &'a Context,
    rows: &'a SnapshotList,
    places: &[usize],
) -> Result<Vec<RankedPlace<'a>>, OutOfMemory>
    requires first { KnowsAll context.now first.now }
    requires others { All (KnowsAll context.now) others.now }
    requires rows { All (IsWithin context.now) rows.now }
    ensures { IfOk result (λ ranked. AreRanked context.now first.now others.now rows.now
        (in_order rows.now places.now) ranked.items) }
{
    let mut ranked = Vec::with_capacity(alloc, places.len())?;
    for place in places {
        ranked.push(RankedPlace {
            first: value_at(first, context, rows, *place),
            others: values_at(alloc, others, context, rows, *place)?,
            place: *place,
        })?;
    }
    Ok(ranked)
}

/// The value of the row at a place that is sought.
fn value_at<'a>(
    seeker: &Seeker,
    context: &'a Context,
    rows: &'a SnapshotList,
    place: usize,
) -> Option<&'a Variant>
    requires knows { KnowsAll context.now seeker.now }
    requires rows { All (IsWithin context.now) rows.now }
    ensures { option_copied result ≡ value_sought (sought seeker.now)
        (flat (meant context.now (nth_numbered rows.now place))) }
{
    seeker.find_among(context, rows.nodes(place), rows.imms(place))
}

fn values_at<'a>(
    alloc: Global,
    seekers: &[Seeker],
    context: &'a Context,
    rows: &'a SnapshotList,
    place: usize,
) -> Result<Vec<Option<&'a Variant>>, OutOfMemory>
    requires knows { All (KnowsAll context.now) seekers.now }
    requires rows { All (IsWithin context.now) rows.now }
    ensures { IfOk result (λ values. map option_copied values.items
        ≡ map (λ s. value_sought (sought s)
        (flat (meant context.now (nth_numbered rows.now place)))) seekers.now) }
{
    let mut values = Vec::new(alloc);
    for seeker in seekers {
        values.push(value_at(seeker, context, rows, place))?;
    }
    Ok(values)
}

fn places_of(alloc: Global, ranked: &[RankedPlace<'_>]) -> Result<Vec<usize>, OutOfMemory>
    ensures { IfOk result (λ places. places.items ≡ map (λ r. r.place) ranked.now) }
{
    let mut places = Vec::with_capacity(alloc, ranked.len())?;
    for row in ranked {
        places.push(row.place)?;
    }
    Ok(places)
}

/// The order of two rows by their values.
fn compare_ranked(order: &[OrderKey], one: &RankedPlace<'_>, other: &RankedPlace<'_>) -> Ordering
    ensures { result
        ≡ values_cmp order.now (ranked_values one.now) (ranked_values other.now) }
{
    let Some((key, keys)) = order.split_first() else {
        return Ordering::Equal;
    };
    let answer = compare_values(one.first, other.first);
    if answer != Ordering::Equal {
        return directed(key.down, answer);
    }
    compare_others(keys, &one.others, &other.others)
}

/// The order of two rows by their values of the keys behind the first one.
fn compare_others(
    order: &[OrderKey],
    one: &[Option<&Variant>],
    other: &[Option<&Variant>],
) -> Ordering
    ensures { result ≡ values_cmp order.now (others_in one.now) (others_in other.now) }
{
    for (place, key) in order.iter().enumerate() {
        let answer = compare_values(value_of(one, place), value_of(other, place));
        if answer != Ordering::Equal {
            return directed(key.down, answer);
        }
    }
    Ordering::Equal
}

fn value_of<'a>(values: &[Option<&'a Variant>], place: usize) -> Option<&'a Variant>
    ensures { option_copied result ≡ value_in (others_in values.now) place }
{
    *values.get(place)?
}
