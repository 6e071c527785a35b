ghost use Rattle.std.specs.Prelude.{◌≡◌};
ghost use Rattle.std.specs.Int.{int_max};
ghost use Rattle.std.specs.Option.{ForSome};
ghost use Rattle.cal_agg.specs.Numbers.{IsSmall, IsWithin};
ghost use Rattle.cal_agg.specs.Parts.{IsAny, merged_by, greatest_over};
ghost use Rattle.cal_agg.specs.Results.{greatest_of};
ghost use Rattle.cal_agg.specs.Joins.{greatest_joins, merged_assoc, merged_comm};
ghost use Rattle.cal_agg.specs.Joins.{no_parts_unit, parts_by-append};
ghost use Rattle.cal_agg.specs.Shown.{value_by};

use crate::parts::{greater, measured};
use crate::{Kernel, Num};
use std::marker::Model;

/// The greatest of what was added: of the whole numbers, and of the fixed ones apart from them.
#[derive(Clone, Copy, Debug)]
pub struct Greatest {
    whole: Option<i128>,
    fixed: Option<i128>,
}

impl Model for Greatest {
    ghost use Rattle.std.specs.Option.{ForSome};
    ghost use Rattle.cal_agg.specs.Numbers.{IsWithin};
    ghost use Rattle.cal_agg.specs.Parts.{Parts};

    ghost Value = { Parts };

    ghost view = { λ s. record { whole = s.whole; fixed = s.fixed } };

    ghost invariant = { λ s. ForSome s.whole (IsWithin 86) };

    ghost inverse = { λ parts. record { whole = parts.whole; fixed = parts.fixed } };
}

impl Greatest {
    /// The greatest of whole numbers, and that of fixed ones.
    pub fn of_parts(whole: Option<i128>, fixed: Option<i128>) -> Greatest
        requires { ForSome whole (IsWithin 86) }
        ensures { result ≡ record { whole = whole; fixed = fixed } }
    {
        Greatest { whole, fixed }
    }
}

impl Kernel for Greatest {
    ghost over = { greatest_over };

    ghost merged = { merged_by int_max };

    ghost shown = { value_by int_max };

    ghost meaning = { greatest_of };

    ghost takes = { IsSmall };

    ghost has_room = { IsAny };

    ghost unit = { no_parts_unit int_max };

    ghost commutative = { merged_comm greatest_joins };

    ghost associative = { merged_assoc greatest_joins };

    ghost concatenation = { parts_by-append greatest_joins };

    ghost room = { λ ns small short. tt };

    fn start() -> Greatest {
        Greatest {
            whole: None,
            fixed: None,
        }
    }

    fn add(&mut self, n: Num) {
        match n {
            Num::Whole(whole) => self.whole = greater(self.whole, Some(whole)),
            Num::Fixed(fixed) => self.fixed = greater(self.fixed, Some(fixed)),
        }
    }

    fn merge(&mut self, other: &Greatest) {
        self.whole = greater(self.whole, other.whole);
        self.fixed = greater(self.fixed, other.fixed);
    }

    #[tactic(auto, using(crate::specs::Shown::greatest_of_added))]
    fn value(&self) -> Option<Num> {
        match (self.whole, self.fixed) {
            (None, None) => None,
            (Some(whole), None) => Some(Num::Whole(whole)),
            (None, Some(fixed)) => Some(Num::Fixed(fixed)),
            (Some(whole), Some(fixed)) => Some(Num::Fixed(measured(whole).max(fixed))),
        }
    }
}
