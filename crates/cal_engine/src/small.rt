ghost use Rattle.std.specs.Prelude.{IsTrue, All, ◌↔◌};
ghost use Rattle.cal_filter.specs.Named.{HasSmallNumbers};
ghost use Rattle.cal_value.specs.Reading.{IsSmall};

use cal_value::{Entry, Rec, Variant};

/// The greatest magnitude of an Int and a Fixed, 2^86.
const MOST: u128 = 1 << 86;

/// Whether each Int and Fixed of a record is at most 2^86 in magnitude.
pub(crate) fn has_small_numbers(rec: &Rec) -> bool
    ensures { IsTrue result → HasSmallNumbers rec.now }
{
    for path in rec.paths.as_slice() {
        if !are_small(path.as_slice()) {
            return false;
        }
    }
    are_small(rec.imms.as_slice())
}

fn are_small(entries: &[Entry]) -> bool
    ensures { IsTrue result ↔ All (λ e. IsSmall e.value) entries.now }
{
    entries.iter().all(|entry| is_small(&entry.value))
}

/// Whether a value is no Int and no Fixed above 2^86 in magnitude.
pub(crate) fn is_small(value: &Variant) -> bool
    ensures { IsTrue result ↔ IsSmall value.now }
{
    match value {
        Variant::Int(number) | Variant::Fixed(number) => number.unsigned_abs() <= MOST,
        _ => true,
    }
}
