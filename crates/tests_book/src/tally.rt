ghost use Rattle.std.specs.Prelude.{◌≡◌, false};

use cal_book::{Merge, Merging};
use cal_value::OutOfMemory;
use std::alloc::Global;

/// A table that is a count alone. One that refuses can't be merged into another.
#[derive(Debug, Drop)]
pub struct Tally {
    pub shape: u32,
    pub count: u64,
    pub refuses: bool,
}

impl Tally {
    /// A part of so many snapshots.
    pub fn of(count: u64) -> Tally
        ensures { result ≡ record { shape = 7; count = count; refuses = false } }
    {
        Tally {
            shape: 7,
            count,
            refuses: false,
        }
    }
}

impl Merging<u32> for Tally {
    ghost use Rattle.std.specs.Prelude.{◌≡◌, ◌+◌, false, refl};
    ghost use Rattle.std.proofs.Common.{sym, ◌∙◌, arith};

    ghost made_for = { λ shape table. table.shape ≡ shape };

    ghost size = { λ table. table.count };

    ghost empty = { λ shape. record { shape = shape; count = 0; refuses = false } };

    ghost merged = { λ a b. record {
      shape = a.shape;
      count = a.count + b.count;
      refuses = a.refuses;
    } };

    ghost same = { λ a b. (a.shape ≡ b.shape) × (a.count ≡ b.count) };

    ghost same_refl = { λ a. (refl, refl) };

    ghost same_sym = { λ a b one. (sym one.0, sym one.1) };

    ghost same_trans = { λ a b c one two. (one.0 ∙ two.0, one.1 ∙ two.1) };

    ghost same_made = { λ shape a b one made. sym one.0 ∙ made };

    ghost same_size = { λ a b one. one.1 };

    ghost same_merged = { λ a b c d one two. (one.0, λ i. one.1 i + two.1 i) };

    ghost empty_made = { λ shape. refl };

    ghost empty_size = { λ shape. refl };

    ghost merged_made = { λ shape a b one two. one };

    ghost merged_size = { λ a b. refl };

    ghost unit = { λ shape a made. (sym made, omega arith) };

    ghost commutative = { λ shape a b one two. (one ∙ sym two, omega arith) };

    ghost associative = { λ shape a b c one two three. (refl, omega arith) };
}

impl Merge<u32> for Tally {
    fn start(_alloc: Global, shape: &u32) -> Result<Tally, OutOfMemory> {
        Ok(Tally {
            shape: *shape,
            count: 0,
            refuses: false,
        })
    }

    fn merge(&mut self, other: Tally) -> Result<(), Tally> {
        if other.refuses {
            return Err(other);
        }
        self.count += other.count;
        Ok(())
    }

    fn snapshots(&self) -> u64 {
        self.count
    }
}
