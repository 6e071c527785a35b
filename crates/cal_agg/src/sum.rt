ghost use Rattle.std.specs.Prelude.{◌≡◌, ◌+ℤ◌};
ghost use Rattle.cal_agg.specs.Numbers.{IsSmall};
ghost use Rattle.cal_agg.specs.Parts.{AreWithin, merged_by, sum_over};
ghost use Rattle.cal_agg.specs.Results.{sum_of};
ghost use Rattle.cal_agg.specs.Joins.{sum_joins, merged_assoc, merged_comm};
ghost use Rattle.cal_agg.specs.Joins.{no_parts_unit, parts_by-append};
ghost use Rattle.cal_agg.specs.Shown.{sum_held};
ghost use Rattle.cal_agg.specs.Limits.{sum_over-within};

use crate::parts::{added, fixed_sum, mixed_sum};
use crate::{Kernel, Num};
use std::marker::Model;

/// A sum: of the whole numbers, and of the fixed ones apart from them.
#[derive(Clone, Copy, Debug)]
pub struct Sum {
    whole: Option<i128>,
    fixed: Option<i128>,
}

impl Model for Sum {
    ghost use Rattle.cal_agg.specs.Parts.{AreWithin, Parts};

    ghost Value = { Parts };

    ghost view = { λ s. record { whole = s.whole; fixed = s.fixed } };

    ghost invariant = { λ s. AreWithin 126 (record { whole = s.whole; fixed = s.fixed }) };

    ghost inverse = { λ parts. record { whole = parts.whole; fixed = parts.fixed } };
}

impl Sum {
    /// The sum of whole numbers, and that of fixed ones.
    pub fn of_parts(whole: Option<i128>, fixed: Option<i128>) -> Sum
        requires { AreWithin 126 (record { whole = whole; fixed = fixed }) }
        ensures { result ≡ record { whole = whole; fixed = fixed } }
    {
        Sum { whole, fixed }
    }
}

impl Kernel for Sum {
    ghost over = { sum_over };

    ghost merged = { merged_by ◌+ℤ◌ };

    ghost shown = { sum_held };

    ghost meaning = { sum_of };

    ghost takes = { IsSmall };

    ghost has_room = { AreWithin 126 };

    ghost unit = { no_parts_unit ◌+ℤ◌ };

    ghost commutative = { merged_comm sum_joins };

    ghost associative = { merged_assoc sum_joins };

    ghost concatenation = { parts_by-append sum_joins };

    ghost room = { sum_over-within };

    fn start() -> Sum {
        Sum {
            whole: None,
            fixed: None,
        }
    }

    fn add(&mut self, n: Num) {
        match n {
            Num::Whole(whole) => self.whole = added(self.whole, Some(whole)),
            Num::Fixed(fixed) => self.fixed = added(self.fixed, Some(fixed)),
        }
    }

    fn merge(&mut self, other: &Sum) {
        self.whole = added(self.whole, other.whole);
        self.fixed = added(self.fixed, other.fixed);
    }

    #[tactic(auto, using(crate::specs::Shown::sum_of_added))]
    fn value(&self) -> Option<Num> {
        match (self.whole, self.fixed) {
            (None, None) => None,
            (Some(whole), None) => Some(Num::Whole(whole)),
            (None, Some(fixed)) => fixed_sum(fixed),
            (Some(whole), Some(fixed)) => mixed_sum(whole, fixed),
        }
    }
}
