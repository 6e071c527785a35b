//! What an operator gives of numbers.
ghost use Rattle.std.specs.Prelude.{◌≡◌, ◌≤◌, length, option_and_then, slice_get};
ghost use Rattle.std.specs.List.{All};
ghost use Rattle.std.specs.Option.{ForSome};
ghost use Rattle.cal_agg.specs.Numbers.{IsSmall};
ghost use Rattle.cal_filter.specs.Lets.{limited as limited_to, operation as result_of};
ghost use Rattle.cal_filter.specs.Lets.{total_of, IsFactor};

use crate::arithmetic::{limited, ratio, scaled, truncated};
use cal_agg::{Kernel, Num, Sum};
use cal_ql::Op;

/// An operator with its number.
#[derive(Clone, Copy, Debug)]
pub(crate) struct Operator {
    pub(crate) op: Op,
    pub(crate) n: i64,
    ghost factor: { IsFactor op n },
}

/// What an operator over numbers gives of the last numbers of its names, within its limit.
#[inline(always)]
pub(crate) fn let_number(operator: Operator, numbers: &[Option<Num>]) -> Option<Num>
    requires small { All (λ number. ForSome number IsSmall) numbers.now }
    requires few { length numbers.now ≤ 16 }
    ensures { result
        ≡ option_and_then limited_to (result_of operator.op operator.n numbers.now) }
{
    limited(operation(operator.op, i128::from(operator.n), numbers)?)
}

#[inline(always)]
fn operation(op: Op, n: i128, numbers: &[Option<Num>]) -> Option<Num>
    requires factor { IsFactor op n }
    requires small { All (λ number. ForSome number IsSmall) numbers.now }
    requires few { length numbers.now ≤ 16 }
    ensures { result ≡ result_of op n numbers.now }
{
    match op {
        Op::Truncate => Some(truncated(n, number_at(numbers, 0)?)),
        Op::Scale => Some(scaled(n, number_at(numbers, 0)?)),
        Op::Ratio => ratio(n, number_at(numbers, 0)?, number_at(numbers, 1)?),
        Op::First => None,
        Op::Sum => total(numbers),
    }
}

fn number_at(numbers: &[Option<Num>], place: usize) -> Option<Num>
    requires { All (λ number. ForSome number IsSmall) numbers.now }
    ensures value { result ≡ option_and_then (λ number. number) (slice_get numbers.now place) }
    ensures small { ForSome result IsSmall }
{
    numbers.get(place).copied().flatten()
}

fn total(numbers: &[Option<Num>]) -> Option<Num>
    requires small { All (λ number. ForSome number IsSmall) numbers.now }
    requires few { length numbers.now ≤ 16 }
    ensures { result ≡ total_of numbers.now }
{
    let mut sum = Sum::start();
    for number in numbers {
        if let Some(number) = number {
            sum.add(*number);
        }
    }
    sum.value()
}
