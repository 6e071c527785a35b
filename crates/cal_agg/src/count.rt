ghost use Rattle.std.specs.Prelude.{◌+ℤ◌, Some};
ghost use Rattle.std.proofs.Math.IntN.{+ℤ_idl, +ℤ_comm, +ℤ_assoc};
ghost use Rattle.cal_agg.specs.declared.num.Num.TheVariants.{Whole};
ghost use Rattle.cal_agg.specs.Numbers.{IsSmallWhole, IsWithin};
ghost use Rattle.cal_agg.specs.Results.{count_of};
ghost use Rattle.cal_agg.specs.Joins.{count_of-append};
ghost use Rattle.cal_agg.specs.Limits.{count_of-within};

use crate::{Kernel, Num};
use std::marker::Model;

/// The sum of whole numbers, 0 of none: how many there are, where each counts as its weight.
#[derive(Clone, Copy, Debug)]
pub struct Count {
    total: i128,
}

impl Model for Count {
    ghost use Rattle.std.specs.Prelude.{ℤ};

    ghost Value = { ℤ };

    ghost view = { λ c. c.total };

    ghost inverse = { λ total. record { total = total } };
}

impl Kernel for Count {
    ghost over = { count_of };

    ghost merged = { ◌+ℤ◌ };

    ghost shown = { λ total. Some (Whole total) };

    ghost meaning = { λ ns. Some (Whole (count_of ns)) };

    ghost takes = { IsSmallWhole };

    ghost has_room = { IsWithin 126 };

    ghost unit = { +ℤ_idl };

    ghost commutative = { +ℤ_comm };

    ghost associative = { +ℤ_assoc };

    ghost concatenation = { count_of-append };

    ghost room = { count_of-within };

    fn start() -> Count {
        Count { total: 0 }
    }

    fn add(&mut self, n: Num) {
        match n {
            Num::Whole(weight) => self.total += weight,
            Num::Fixed(_) => unreachable!(),
        }
    }

    fn merge(&mut self, other: &Count) {
        self.total += other.total;
    }

    fn value(&self) -> Option<Num> {
        Some(Num::Whole(self.total))
    }
}
