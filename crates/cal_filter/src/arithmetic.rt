//! The limit of a result, and the steps and quotients of operators.
ghost use Rattle.std.specs.Prelude.{◌≡◌, ◌<ℤ◌, ◌*ℤ◌, ◌^◌, pos, unsigned_abs};
ghost use Rattle.std.specs.Int.{int_div_euclid};
ghost use Rattle.std.specs.Option.{ForSome};
ghost use Rattle.cal_agg.specs.Numbers.{IsSmall, IsWithin, measure as measure_of};
ghost use Rattle.cal_filter.specs.Lets.{floor_to as multiple_below, limited as limited_to};
ghost use Rattle.cal_filter.specs.Lets.{quotient as quotient_of, quotient_of_measures};
ghost use Rattle.cal_filter.specs.Lets.{ratio_of, scaled as scaled_by};
ghost use Rattle.cal_filter.specs.Lets.{truncated as truncated_to};

use cal_agg::Num;

/// The nano-units of a whole one.
const NANO: i128 = 1_000_000_000;

/// The greatest magnitude of a measure times a ratio's number, 2^126.
const MOST: u128 = 1 << 126;

/// `truncate`: the greatest multiple of `n` wholes that isn't above a number.
pub(crate) fn truncated(n: i128, number: Num) -> Num
    requires above { pos 0 <ℤ n }
    requires within { IsWithin 31 n }
    requires small { IsSmall number }
    ensures { result ≡ truncated_to n number }
{
    match number {
        Num::Whole(whole) => Num::Whole(floor_to(n, whole)),
        Num::Fixed(fixed) => Num::Fixed(floor_to(NANO * n, fixed)),
    }
}

fn floor_to(step: i128, number: i128) -> i128
    requires above { pos 0 <ℤ step }
    requires within { IsWithin 61 step }
    requires small { IsWithin 86 number }
    ensures { result ≡ multiple_below step number }
{
    step * quotient_below(step, number)
}

/// The greatest quotient that isn't above the true one. Small numbers are divided as such, which
/// takes less time.
fn quotient_below(step: i128, number: i128) -> i128
    requires above { pos 0 <ℤ step }
    ensures { result ≡ int_div_euclid number step }
{
    if let Ok(step) = u64::try_from(step) {
        if let Ok(number) = u64::try_from(number) {
            return i128::from(number / step);
        }
    }
    number.div_euclid(step)
}

/// `scale`: the product.
pub(crate) fn scaled(n: i128, number: Num) -> Num
    requires within { IsWithin 31 n }
    requires small { IsSmall number }
    ensures { result ≡ scaled_by n number }
{
    match number {
        Num::Whole(whole) => Num::Whole(product(whole, n)),
        Num::Fixed(fixed) => Num::Fixed(product(fixed, n)),
    }
}

fn product(number: i128, n: i128) -> i128
    requires small { IsWithin 86 number }
    requires within { IsWithin 31 n }
    ensures value { result ≡ number *ℤ n }
    ensures within { IsWithin 117 result }
{
    let product = number * n;
    product
}

/// `ratio`: `n` times one number over another, rounded towards 0.
pub(crate) fn ratio(n: i128, one: Num, other: Num) -> Option<Num>
    requires within { IsWithin 31 n }
    requires one { IsSmall one }
    requires other { IsSmall other }
    ensures { result ≡ ratio_of n one other }
{
    match (one, other) {
        (Num::Whole(one), Num::Whole(other)) => quotient(product(one, n), other),
        (one, other) => ratio_of_measures(n, measure(one), measure(other)),
    }
}

/// A number in nano-units.
fn measure(number: Num) -> i128
    requires { IsSmall number }
    ensures value { result ≡ measure_of number }
    ensures within { IsWithin 116 result }
{
    match number {
        Num::Whole(whole) => NANO * whole,
        Num::Fixed(fixed) => fixed,
    }
}

fn ratio_of_measures(n: i128, one: i128, other: i128) -> Option<Num>
    requires within { IsWithin 31 n }
    ensures { result ≡ quotient_of_measures (one *ℤ n) other }
{
    let product = one.checked_mul(n)?;
    if product.unsigned_abs() <= MOST {
        quotient(product, other)
    } else {
        None
    }
}

fn quotient(product: i128, other: i128) -> Option<Num>
    requires { IsWithin 126 product }
    ensures { result ≡ quotient_of product other }
{
    if other == 0 {
        None
    } else {
        Some(Num::Whole(product / other))
    }
}

/// A result within the limit of 2^86.
pub(crate) fn limited(number: Num) -> Option<Num>
    ensures value { result ≡ limited_to number }
    ensures small { ForSome result IsSmall }
{
    if number.is_small() {
        Some(number)
    } else {
        None
    }
}
