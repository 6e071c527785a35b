ghost use Rattle.std.specs.Prelude.{◌≡◌, ◌↔◌, IsTrue};
ghost use Rattle.cal_value.specs.ExactOrder.{exact_tells, lists_tell, text_exact};
ghost use Rattle.cal_value.specs.OrderLaws.{attribute_exact, entry_exact, group_exact, kind_exact};
ghost use Rattle.cal_value.specs.OrderLaws.{props_exact, value_exact};

use crate::{Attribute, Entry, Kind, Props, Rec, Seq, Text, Variant};

/// A type whose `==` is equality of the values that contracts see.
pub trait Exact: Eq {
    ghost tells: { (x y : Self) → IsTrue (Self.PartialEq.eq x y) → x ≡ y };
}

/// Whether two values are the same.
pub fn same<T: Exact>(one: &T, other: &T) -> bool
    ensures { IsTrue result ↔ (one.now ≡ other.now) }
{
    one == other
}

impl<T: Exact> Exact for Seq<T> {
    ghost tells = { lists_tell T.tells };
}

impl Exact for Text {
    ghost tells = { exact_tells text_exact };
}

impl Exact for Kind {
    ghost tells = { exact_tells kind_exact };
}

impl Exact for Props {
    ghost tells = { exact_tells props_exact };
}

impl Exact for Variant {
    ghost tells = { exact_tells value_exact };
}

impl Exact for Attribute {
    ghost tells = { exact_tells attribute_exact };
}

impl Exact for Entry {
    ghost tells = { exact_tells entry_exact };
}

impl Exact for Rec {
    ghost tells = { exact_tells group_exact };
}
