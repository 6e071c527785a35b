//! Values as numbers, and numbers as values.
ghost use Rattle.std.specs.Prelude.{◌≡◌};
ghost use Rattle.cal_filter.specs.Numbers.{number_in as number_in_value};
ghost use Rattle.cal_filter.specs.Numbers.{value_of_number as value_of};

use cal_agg::Num;
use cal_value::Variant;

/// The number that a value is, if it is one.
pub fn number_in(value: &Variant) -> Option<Num>
    ensures { result ≡ number_in_value value.now }
{
    match value {
        Variant::Int(number) => Some(Num::Whole(*number)),
        Variant::Uint(number) => Some(Num::Whole(i128::from(*number))),
        Variant::Fixed(nanos) => Some(Num::Fixed(*nanos)),
        _ => None,
    }
}

/// A result as a value, a whole number as an Int.
pub fn value_of_number(number: Num) -> Variant
    ensures { result ≡ value_of number }
{
    match number {
        Num::Whole(number) => Variant::Int(number),
        Num::Fixed(nanos) => Variant::Fixed(nanos),
    }
}
