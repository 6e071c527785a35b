//! How a value is ordered beside a text that is no value yet, so that it takes no memory.
ghost use Rattle.std.specs.Prelude.{◌≡◌};
ghost use Rattle.cal_value.specs.Order.{value_cmp};
ghost use Rattle.cal_value.specs.Texts.{text_cmp};
ghost use Rattle.cal_value.specs.declared.variant.Variant.TheVariants as variant;

use cal_value::{Text, Variant};
use std::cmp::Ordering;

/// The order of two texts.
pub(crate) fn order(text: &Text, other: &str) -> Ordering
    ensures { result ≡ text_cmp text.now other.now }
{
    text.as_str().cmp(other)
}

/// The order of a value beside a `Text`.
pub(crate) fn beside_text(value: &Variant, other: &str) -> Ordering
    ensures { result ≡ value_cmp value.now (variant.Text other.now) }
{
    match value {
        Variant::Text(text) => order(text, other),
        Variant::Real(_) | Variant::Usr(_) | Variant::Ptr(_) => Ordering::Greater,
        _ => Ordering::Less,
    }
}

/// The order of a value beside a `Real`.
pub(crate) fn beside_real(value: &Variant, other: &str) -> Ordering
    ensures { result ≡ value_cmp value.now (variant.Real other.now) }
{
    match value {
        Variant::Real(text) => order(text, other),
        Variant::Usr(_) | Variant::Ptr(_) => Ordering::Greater,
        _ => Ordering::Less,
    }
}

/// The order of a value beside a `Usr`.
pub(crate) fn beside_usr(value: &Variant, other: &str) -> Ordering
    ensures { result ≡ value_cmp value.now (variant.Usr other.now) }
{
    match value {
        Variant::Usr(text) => order(text, other),
        Variant::Ptr(_) => Ordering::Greater,
        _ => Ordering::Less,
    }
}

/// The order of a value beside a `Ptr`.
pub(crate) fn beside_ptr(value: &Variant, other: &str) -> Ordering
    ensures { result ≡ value_cmp value.now (variant.Ptr other.now) }
{
    match value {
        Variant::Ptr(text) => order(text, other),
        _ => Ordering::Less,
    }
}
