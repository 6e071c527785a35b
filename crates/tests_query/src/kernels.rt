//! What kernels come to.
ghost use Rattle.std.specs.Prelude.{◌≡◌, ◌≤◌, ◌^◌, ◌<◌, length, All};
ghost use Rattle.cal_agg.specs.Numbers.{IsSmall, IsWithin};
ghost use Rattle.cal_agg.specs.Parts.{AreWithin, sum_over};

use cal_agg::Num::{Fixed, Whole};
use cal_agg::{
    AggRow, Cell, Count, Greatest, Kernel, Least, Num, Sum, average, kernel_of, percent_total,
};
use cal_value::OutOfMemory;
use std::alloc::Global;
use std::process::Abort;

// the greatest magnitude that may be added
const LIMIT: i128 = 77371252455336267181195264;

// The numbers are few, and kernels may take them.
fn check(rt: &impl Abort, numbers: &[Num])
    ensures small { All IsSmall numbers.now }
    ensures few { length numbers.now ≤ 2 ^ 32 }
{
    assert!(rt; numbers.len() < 100);
    for n in numbers {
        assert!(rt; n.is_small());
    }
}

fn summed(rt: &impl Abort, numbers: &[Num]) -> Sum
    ensures { AreWithin 118 result }
{
    check(rt, numbers);
    kernel_of(numbers)
}

// What the numbers come to: their sum, their least and greatest one, and their average.
#[derive(Clone, Copy)]
struct Results {
    sum: Option<Num>,
    ends: Option<(Num, Num)>,
    average: Option<Num>,
}

fn has_sum(rt: &impl Abort, numbers: &[Num], results: &Results) -> bool {
    let sum = summed(rt, numbers);
    sum.value() == results.sum && average(&sum, numbers.len() as u64) == results.average
}

fn has_ends(rt: &impl Abort, numbers: &[Num], results: &Results) -> bool {
    check(rt, numbers);
    let least: Least = kernel_of(numbers);
    let greatest: Greatest = kernel_of(numbers);
    match results.ends {
        Some((low, high)) => least.value() == Some(low) && greatest.value() == Some(high),
        None => least.value().is_none() && greatest.value().is_none(),
    }
}

fn come_to(rt: &impl Abort, numbers: &[Num], results: Results) {
    assert!(rt; has_sum(rt, numbers, &results), "sum and average");
    assert!(rt; has_ends(rt, numbers, &results), "ends");
}

#[test]
fn nothing_comes_to_nothing(rt: HostRuntime) {
    let results = Results {
        sum: None,
        ends: None,
        average: None,
    };
    come_to(&rt, &[], results);
    assert_eq!(rt; Count::start().value(), Some(Whole(0)));
}

#[test]
fn whole_numbers_come_to_whole_ones(rt: HostRuntime) {
    let results = Results {
        sum: Some(Whole(-7)),
        ends: Some((Whole(-9), Whole(2))),
        average: Some(Whole(-3)),
    };
    come_to(&rt, &[Whole(2), Whole(-9)], results);
}

#[test]
fn fixed_numbers_come_to_fixed_ones(rt: HostRuntime) {
    let results = Results {
        sum: Some(Fixed(300000001)),
        ends: Some((Fixed(1), Fixed(200000000))),
        average: Some(Fixed(100000000)),
    };
    come_to(
        &rt,
        &[Fixed(100000000), Fixed(200000000), Fixed(1)],
        results,
    );
}

#[test]
fn one_fixed_number_makes_all_fixed(rt: HostRuntime) {
    let results = Results {
        sum: Some(Fixed(2500000000)),
        ends: Some((Fixed(500000000), Fixed(2000000000))),
        average: Some(Fixed(1250000000)),
    };
    come_to(&rt, &[Whole(2), Fixed(500000000)], results);
}

// an `int` and a `uint` are both whole
#[test]
fn at_a_tie_the_end_is_fixed(rt: HostRuntime) {
    let results = Results {
        sum: Some(Fixed(6000000000)),
        ends: Some((Fixed(2000000000), Fixed(2000000000))),
        average: Some(Fixed(2000000000)),
    };
    come_to(&rt, &[Whole(2), Whole(2), Fixed(2000000000)], results);
}

#[test]
fn numbers_at_their_limit(rt: HostRuntime) {
    assert!(rt; Whole(LIMIT).is_small());
    assert!(rt; Fixed(-LIMIT).is_small());
    assert!(rt; !Whole(LIMIT + 1).is_small());
    assert!(rt; !Fixed(-LIMIT - 1).is_small());
    let results = Results {
        sum: Some(Fixed(0)),
        ends: Some((Fixed(-LIMIT * 1000000000), Fixed(LIMIT * 1000000000))),
        average: Some(Fixed(0)),
    };
    come_to(&rt, &[Whole(LIMIT), Whole(-LIMIT), Fixed(0)], results);
}

/// Four times the limit, and two numbers more.
fn with_two(rt: &impl Abort, one: Num, other: Num) -> Sum
    ensures { AreWithin 118 result }
{
    let a = Whole(LIMIT);
    summed(rt, &[a, a, a, a, one, other])
}

// 2^118 is 332306998946228968225951765 wholes and 70086144 nano-units
#[test]
fn a_fixed_sum_of_2_to_118_is_there(rt: HostRuntime) {
    let rest = Whole(22821989124883899501170709);
    let sum = with_two(&rt, rest, Fixed(70086144));
    assert!(rt; sum.value() == Some(Fixed(332306998946228968225951765070086144)));
    let sum = with_two(&rt, rest, Fixed(70086145));
    assert!(rt; sum.value().is_none() && average(&sum, 6).is_none());
    let sum = with_two(&rt, rest, Whole(1));
    assert!(rt; sum.value() == Some(Whole(332306998946228968225951766)));
}

/// What the numbers of a group are of those of all.
fn percentage(rt: &impl Abort, group: &[Num], all: &[Num]) -> Option<Num> {
    percent_total(&summed(rt, group), &summed(rt, all))
}

#[test]
fn percentages_round_towards_0(rt: HostRuntime) {
    let group = [Whole(-2)];
    assert!(rt; percentage(&rt, &group, &[Whole(-2), Whole(5)]) == Some(Whole(-66)));
    let fixed = [Whole(-2), Fixed(5000000000)];
    assert!(rt; percentage(&rt, &group, &fixed) == Some(Whole(-66)));
    assert!(rt; percentage(&rt, &group, &[Whole(-2), Whole(2)]).is_none());
    assert!(rt; percentage(&rt, &[], &fixed).is_none());
    assert!(rt; percentage(&rt, &group, &[]).is_none());
}

#[test]
fn a_percentage_of_too_large_a_measure_is_absent(rt: HostRuntime) {
    let a = Whole(LIMIT);
    let group = [a, a, a, a, a];
    assert!(rt; percentage(&rt, &group, &group) == Some(Whole(100)));
    assert!(rt; percentage(&rt, &group, &[Fixed(1)]).is_none());
    assert!(rt; percentage(&rt, &[Fixed(1)], &group).is_none());
}

fn rows_merge(alloc: Global) -> Result<bool, OutOfMemory> {
    let other = AggRow::start(alloc, 2)?;
    let mut one = AggRow::start(alloc, 2)?;
    one.merge(&other);
    Ok(one.cells.as_slice().len() == 2 && one.count.value() == Some(Whole(0)))
}

#[test]
fn a_row_merges_cell_by_cell(rt: HostRuntime) {
    assert!(rt; rows_merge(rt.alloc()) == Ok(true));
}

#[test]
fn a_cell_keeps_a_sum_and_both_ends(rt: HostRuntime) {
    let mut cell = Cell::start();
    cell.add(Whole(3));
    cell.add(Whole(-4));
    let copy = cell;
    cell.merge(&copy);
    assert_eq!(rt; cell.sum().value(), Some(Whole(-2)));
    assert_eq!(rt; cell.least().value(), Some(Whole(-4)));
    assert_eq!(rt; cell.greatest().value(), Some(Whole(3)));
}

// A sum that is doubled 40 times from 2^86 just reaches 2^126.
#[test]
fn a_sum_reaches_2_to_126(rt: HostRuntime) {
    let mut sum = Sum::start();
    sum.add(Whole(LIMIT));
    for bits in 86..126u32 {
        let _ = bits;
        let copy = sum;
        sum.merge(&copy);
    }
    assert_eq!(rt; sum.value(), Some(Whole(1 << 126)));
}

// A count that is doubled 40 times from 2^86 just reaches 2^126.
#[test]
fn a_count_reaches_2_to_126(rt: HostRuntime) {
    let mut count = Count::start();
    count.add(Whole(LIMIT));
    for bits in 86..126u32 {
        let _ = bits;
        let copy = count;
        count.merge(&copy);
    }
    assert_eq!(rt; count.value(), Some(Whole(1 << 126)));
}
