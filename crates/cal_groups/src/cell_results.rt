//! The results of a row, from what it holds of a value attribute.
ghost use Rattle.std.specs.Prelude.{◌≡◌, ◌≤◌, ◌+◌, ◌^◌};
ghost use Rattle.std.specs.Prelude.{ℤ, pos, ◌-ℤ◌, ◌*ℤ◌, unsigned_abs};
ghost use Rattle.std.specs.Option.{ForSome};
ghost use Rattle.cal_agg.specs.Numbers.{IsSmall, IsWithin};
ghost use Rattle.cal_profile.specs.TableRows.{others_of as left_of_sum, row_result};
ghost use Rattle.cal_ql.specs.declared.names.KernelName.TheVariants as kernel;

use cal_agg::{AggRow, Cell, Kernel, Num};

/// How many snapshots a row counts.
pub(crate) fn count_of(row: &AggRow) -> i128
    ensures { result ≡ row.now.count }
{
    match row.count.value() {
        Some(Num::Whole(count)) => count,
        _ => unreachable!(),
    }
}

/// The sum. `known` is the number of the attribute that the row's key has, if it has one: then each
/// of the snapshots has it, and one contributes by itself.
pub(crate) fn sum_result(count: i128, known: Option<Num>, cell: &Cell) -> Option<Num>
    requires count { IsWithin 40 count }
    requires known { ForSome known IsSmall }
    ensures { result ≡ row_result count known cell.now kernel.Sum }
{
    match known {
        Some(number) => Some(others_of(count, number)),
        None => cell.sum().value(),
    }
}

/// The least number, where the key has none.
pub(crate) fn least_result(known: Option<Num>, cell: &Cell) -> Option<Num>
    ensures { (count : ℤ) → result ≡ row_result count known cell.now kernel.Min }
{
    match known {
        Some(_) => None,
        None => cell.least().value(),
    }
}

/// The greatest number, where the key has none.
pub(crate) fn greatest_result(known: Option<Num>, cell: &Cell) -> Option<Num>
    ensures { (count : ℤ) → result ≡ row_result count known cell.now kernel.Max }
{
    match known {
        Some(_) => None,
        None => cell.greatest().value(),
    }
}

/// What is left of the sum of so many equal numbers, without one.
fn others_of(count: i128, number: Num) -> Num
    requires count { IsWithin 40 count }
    requires small { IsSmall number }
    ensures { result ≡ left_of_sum count number }
{
    match number {
        Num::Whole(whole) => Num::Whole(times_others(count, whole)),
        Num::Fixed(nanos) => Num::Fixed(times_others(count, nanos)),
    }
}

fn times_others(count: i128, number: i128) -> i128
    requires count { IsWithin 40 count }
    requires small { IsWithin 86 number }
    ensures { result ≡ (count -ℤ pos 1) *ℤ number }
{
    let others = count - 1;
    product(others, number)
}

fn product(others: i128, number: i128) -> i128
    requires others { unsigned_abs others ≤ 2 ^ 40 + 1 }
    requires small { IsWithin 86 number }
    ensures { result ≡ others *ℤ number }
{
    let product = others * number;
    product
}
