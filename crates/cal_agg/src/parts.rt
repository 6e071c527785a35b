ghost use Rattle.std.specs.Prelude.{◌≡◌, ◌+ℤ◌, Some};
ghost use Rattle.std.specs.Int.{int_min, int_max};
ghost use Rattle.std.specs.Option.{ForSome};
ghost use Rattle.cal_agg.specs.declared.num.Num.TheVariants.{Fixed};
ghost use Rattle.cal_agg.specs.Numbers.{IsWithin, nano_units};
ghost use Rattle.cal_agg.specs.Results.{both, kept};

use crate::Num;

/// The nano-units of one.
pub(crate) const NANO: i128 = 1_000_000_000;

/// The greatest magnitude of a fixed sum, 2^118.
pub(crate) const MOST: u128 = 1 << 118;

/// The sum of two numbers that may be missing.
pub(crate) fn added(one: Option<i128>, other: Option<i128>) -> Option<i128>
    requires { ForSome (both ◌+ℤ◌ one other) (IsWithin 126) }
    ensures { result ≡ both ◌+ℤ◌ one other }
{
    match (one, other) {
        (Some(one), Some(other)) => Some(one + other),
        (Some(one), None) => Some(one),
        (None, other) => other,
    }
}

/// The lesser of two numbers that may be missing.
pub(crate) fn lesser(one: Option<i128>, other: Option<i128>) -> Option<i128>
    ensures { result ≡ both int_min one other }
{
    match (one, other) {
        (Some(one), Some(other)) => Some(one.min(other)),
        (Some(one), None) => Some(one),
        (None, other) => other,
    }
}

/// The greater of two numbers that may be missing.
pub(crate) fn greater(one: Option<i128>, other: Option<i128>) -> Option<i128>
    ensures { result ≡ both int_max one other }
{
    match (one, other) {
        (Some(one), Some(other)) => Some(one.max(other)),
        (Some(one), None) => Some(one),
        (None, other) => other,
    }
}

/// A fixed sum, where it is not too large to be one.
pub(crate) fn fixed_sum(fixed: i128) -> Option<Num>
    ensures { result ≡ kept (Fixed fixed) }
{
    if fixed.unsigned_abs() <= MOST {
        Some(Num::Fixed(fixed))
    } else {
        None
    }
}

/// The fixed sum of whole numbers and of fixed ones, where it is not too large to be one.
pub(crate) fn mixed_sum(whole: i128, fixed: i128) -> Option<Num>
    requires { IsWithin 126 fixed }
    ensures { result ≡ kept (Fixed (nano_units whole +ℤ fixed)) }
{
    // a measure beyond 128 bits is too far off for the fixed part to bring it back
    fixed_sum(NANO.checked_mul(whole)?.checked_add(fixed)?)
}

/// A whole number in nano-units.
pub(crate) fn measured(whole: i128) -> i128
    requires { IsWithin 86 whole }
    ensures { result ≡ nano_units whole }
{
    NANO * whole
}
