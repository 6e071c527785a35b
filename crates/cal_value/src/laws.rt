ghost use Rattle.std.specs.Prelude.{◌≡◌, Some};
ghost use Rattle.cal_value.specs.ExactOrder.{IsExactOrder};
ghost use Rattle.cal_value.specs.Order.{attribute_cmp, entry_cmp, group_cmp, kind_cmp, path_cmp};
ghost use Rattle.cal_value.specs.Order.{props_cmp, value_cmp};
ghost use Rattle.cal_value.specs.Reading.{IsInRange, IsReadable, value_of};
ghost use Rattle.cal_value.specs.Texts.{text_cmp};
ghost use Rattle.cal_value.specs.Values.{kind_of, value_text};

use crate::Variant;

/// Each order is total, and answers Equal exactly where the values are the same.
#[tactic(auto, using(crate::specs::OrderLaws::exact_orders))]
pub fn order_is_exact()
    ensures texts { IsExactOrder text_cmp }
    ensures kinds { IsExactOrder kind_cmp }
    ensures props { IsExactOrder props_cmp }
    ensures values { IsExactOrder value_cmp }
    ensures attributes { IsExactOrder attribute_cmp }
    ensures entries { IsExactOrder entry_cmp }
    ensures paths { IsExactOrder path_cmp }
    ensures groups { IsExactOrder group_cmp }
{}

/// A printed value reads back as itself: an Int and a Fixed where they aren't too large, and a Real
/// where its text isn't that of a Fixed.
#[tactic(auto, using(crate::proofs::RoundTrip::reads_back))]
pub fn printed_reads_back(value: &Variant)
    ensures range { IsInRange value.now }
    ensures same { IsReadable value.now
        → value_of (kind_of value.now) (value_text value.now) ≡ Some value.now }
{
    // reading a number shows that it fits its type
    let _ = match value {
        Variant::Uint(number) => *number,
        Variant::Addr(address) => *address,
        _ => 0,
    };
}
