ghost use Rattle.std.specs.Prelude.{◌≡◌};
ghost use Rattle.std.specs.Int.{int_min};
ghost use Rattle.std.specs.Option.{ForSome};
ghost use Rattle.cal_agg.specs.Numbers.{IsSmall, IsWithin};
ghost use Rattle.cal_agg.specs.Parts.{IsAny, merged_by, least_over};
ghost use Rattle.cal_agg.specs.Results.{least_of};
ghost use Rattle.cal_agg.specs.Joins.{least_joins, merged_assoc, merged_comm};
ghost use Rattle.cal_agg.specs.Joins.{no_parts_unit, parts_by-append};
ghost use Rattle.cal_agg.specs.Shown.{value_by};

use crate::parts::{lesser, measured};
use crate::{Kernel, Num};
use std::marker::Model;

/// The least of what was added: of the whole numbers, and of the fixed ones apart from them.
#[derive(Clone, Copy, Debug)]
pub struct Least {
    whole: Option<i128>,
    fixed: Option<i128>,
}

impl Model for Least {
    ghost use Rattle.std.specs.Option.{ForSome};
    ghost use Rattle.cal_agg.specs.Numbers.{IsWithin};
    ghost use Rattle.cal_agg.specs.Parts.{Parts};

    ghost Value = { Parts };

    ghost view = { λ s. record { whole = s.whole; fixed = s.fixed } };

    ghost invariant = { λ s. ForSome s.whole (IsWithin 86) };

    ghost inverse = { λ parts. record { whole = parts.whole; fixed = parts.fixed } };
}

impl Least {
    /// The least of whole numbers, and that of fixed ones.
    pub fn of_parts(whole: Option<i128>, fixed: Option<i128>) -> Least
        requires { ForSome whole (IsWithin 86) }
        ensures { result ≡ record { whole = whole; fixed = fixed } }
    {
        Least { whole, fixed }
    }
}

impl Kernel for Least {
    ghost over = { least_over };

    ghost merged = { merged_by int_min };

    ghost shown = { value_by int_min };

    ghost meaning = { least_of };

    ghost takes = { IsSmall };

    ghost has_room = { IsAny };

    ghost unit = { no_parts_unit int_min };

    ghost commutative = { merged_comm least_joins };

    ghost associative = { merged_assoc least_joins };

    ghost concatenation = { parts_by-append least_joins };

    ghost room = { λ ns small short. tt };

    fn start() -> Least {
        Least {
            whole: None,
            fixed: None,
        }
    }

    fn add(&mut self, n: Num) {
        match n {
            Num::Whole(whole) => self.whole = lesser(self.whole, Some(whole)),
            Num::Fixed(fixed) => self.fixed = lesser(self.fixed, Some(fixed)),
        }
    }

    fn merge(&mut self, other: &Least) {
        self.whole = lesser(self.whole, other.whole);
        self.fixed = lesser(self.fixed, other.fixed);
    }

    #[tactic(auto, using(crate::specs::Shown::least_of_added))]
    fn value(&self) -> Option<Num> {
        match (self.whole, self.fixed) {
            (None, None) => None,
            (Some(whole), None) => Some(Num::Whole(whole)),
            (None, Some(fixed)) => Some(Num::Fixed(fixed)),
            (Some(whole), Some(fixed)) => Some(Num::Fixed(measured(whole).min(fixed))),
        }
    }
}
