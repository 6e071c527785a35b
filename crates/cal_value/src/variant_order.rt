ghost use Rattle.std.specs.Prelude.{◌≡◌, ◌↔◌, IsTrue, refl};
ghost use Rattle.std.specs.Cmp.{partial_order_from_total};
ghost use Rattle.std.specs.Ordering.{as_partial_cmp, eq_by_cmp, int_cmp};
ghost use Rattle.cal_value.specs.Measures.{nanos as of_whole, value_whole};
ghost use Rattle.cal_value.specs.Order.{value_bytes, value_class, value_cmp, value_number};
ghost use Rattle.cal_value.specs.Order.{value_rank};
ghost use Rattle.cal_value.specs.OrderLaws.{value_exact};
ghost use Rattle.cal_value.specs.ExactOrder.{exact_equiv, exact_per};

use crate::Variant;
use std::cmp::Ordering;

impl PartialEq for Variant {
    ghost eq = { eq_by_cmp value_cmp };

    ghost laws = { exact_per value_exact };

    fn eq(&self, other: &Variant) -> bool
        ensures value { result ≡ eq_by_cmp value_cmp self.now other.now }
        ensures same { IsTrue result ↔ (self.now ≡ other.now) }
    {
        match self {
            Variant::Int(a) => match other {
                Variant::Int(b) => a == b,
                _ => false,
            },
            Variant::Uint(a) => match other {
                Variant::Uint(b) => a == b,
                _ => false,
            },
            Variant::Text(a) => match other {
                Variant::Text(b) => *a == *b,
                _ => false,
            },
            Variant::Bool(a) => match other {
                Variant::Bool(b) => a == b,
                _ => false,
            },
            Variant::Addr(a) => match other {
                Variant::Addr(b) => a == b,
                _ => false,
            },
            Variant::Kind(a) => match other {
                Variant::Kind(b) => a == b,
                _ => false,
            },
            Variant::Real(a) => match other {
                Variant::Real(b) => *a == *b,
                _ => false,
            },
            Variant::Fixed(a) => match other {
                Variant::Fixed(b) => a == b,
                _ => false,
            },
            Variant::Usr(a) => match other {
                Variant::Usr(b) => *a == *b,
                _ => false,
            },
            Variant::Ptr(a) => match other {
                Variant::Ptr(b) => *a == *b,
                _ => false,
            },
        }
    }
}

impl Eq for Variant {
    ghost laws = { exact_equiv value_exact };
}

impl PartialOrd for Variant {
    ghost partial_cmp = { as_partial_cmp value_cmp };

    ghost laws = { partial_order_from_total value_exact.total };

    fn partial_cmp(&self, other: &Variant) -> Option<Ordering> {
        Some(self.cmp(other))
    }
}

impl Ord for Variant {
    ghost cmp = { value_cmp };

    ghost total = { value_exact.total };

    ghost matches_partial_cmp = { λ _ _. refl };

    ghost matches_eq = { λ _ _. refl };

    fn cmp(&self, other: &Variant) -> Ordering {
        self.class()
            .cmp(&other.class())
            .then_with(|| self.cmp_number(other))
            .then_with(|| self.rank().cmp(&other.rank()))
            .then_with(|| self.bytes().cmp(other.bytes()))
    }
}

impl Variant {
    // the class in which values of its kind are ordered
    fn class(&self) -> u8
        ensures { result ≡ value_class self.now }
    {
        match self {
            Variant::Int(_) => 0,
            Variant::Uint(_) => 0,
            Variant::Fixed(_) => 0,
            Variant::Bool(_) => 1,
            Variant::Addr(_) => 2,
            Variant::Kind(_) => 3,
            Variant::Text(_) => 4,
            Variant::Real(_) => 5,
            Variant::Usr(_) => 6,
            Variant::Ptr(_) => 7,
        }
    }

    // the order of the numbers of two values of one class
    fn cmp_number(&self, other: &Variant) -> Ordering
        ensures { value_class self.now ≡ value_class other.now
            → result ≡ int_cmp (value_number self.now) (value_number other.now) }
    {
        match self {
            Variant::Fixed(one) => match other {
                Variant::Fixed(other) => one.cmp(other),
                _ => cmp_whole(other.whole(), *one).reverse(),
            },
            _ => match other {
                Variant::Fixed(other) => cmp_whole(self.whole(), *other),
                _ => self.whole().cmp(&other.whole()),
            },
        }
    }

    // the number by which a value is ordered among those that aren't Fixed
    fn whole(&self) -> i128
        ensures { result ≡ value_whole self.now }
    {
        match self {
            Variant::Int(number) => *number,
            Variant::Uint(number) => i128::from(*number),
            Variant::Bool(truth) => i128::from(*truth),
            Variant::Addr(address) => i128::from(*address),
            Variant::Kind(kind) => i128::from(kind.node()),
            _ => 0,
        }
    }

    fn rank(&self) -> u8
        ensures { result ≡ value_rank self.now }
    {
        match self {
            Variant::Uint(_) => 1,
            Variant::Fixed(_) => 2,
            _ => 0,
        }
    }

    fn bytes(&self) -> &str
        ensures { result.now ≡ value_bytes self.now }
    {
        match self {
            Variant::Text(text) => text.as_str(),
            Variant::Real(text) => text.as_str(),
            Variant::Usr(text) => text.as_str(),
            Variant::Ptr(text) => text.as_str(),
            _ => "",
        }
    }
}

// A whole number beside nano-units. Its own nano-units may be more than 128 bits hold, so the whole
// parts are compared first.
fn cmp_whole(whole: i128, nanos: i128) -> Ordering
    ensures { result ≡ int_cmp (of_whole whole) nanos }
{
    whole
        .cmp(&nanos.div_euclid(1_000_000_000))
        .then_with(|| 0.cmp(&nanos.rem_euclid(1_000_000_000)))
}
