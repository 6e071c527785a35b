//! The two numbers by which the maps of a run hash.

ghost use Rattle.std.specs.Prelude.{◌≡◌};
ghost use Rattle.cal_seeds.specs.Seeds as hash;

use crate::SeededHasher;
use crate::reading::folded_multiply;
use std::hash::{BuildHasher, RandomState};

/// Two numbers by which the maps of a run hash: where a hash starts, and by what it is multiplied.
#[derive(Clone, Copy, Debug, Drop)]
pub struct Seeds {
    pub start: u64,
    pub factor: u64,
}

impl Seeds {
    /// Two numbers that follow from the secret of a run alone, one hash for each. The factor is odd.
    pub fn of(hashers: &RandomState) -> Seeds {
        Seeds {
            start: hashers.hash_one(0u64),
            factor: hashers.hash_one(1u64) | 1,
        }
    }

    /// The same two numbers for everybody, which stand in the library's own hasher too: for a map
    /// whose keys nobody chooses, and for a caller that has no run.
    #[inline(always)]
    pub fn fixed() -> Seeds {
        Seeds {
            start: 0x243f_6a88_85a3_08d3,
            factor: 0x9e37_79b9_7f4a_7c15,
        }
    }

    /// A word that is mixed by the seeds: for a hasher of a key's own.
    #[inline(always)]
    pub fn mixed(&self, word: u64) -> u64
        ensures { result ≡ hash.mixed self.now word }
    {
        folded_multiply(word ^ self.start, self.factor)
    }
}

impl BuildHasher for Seeds {
    type Hasher = SeededHasher;

    ghost build_hasher = { λ s. record { state = s.start; factor = s.factor } };

    #[inline(always)]
    fn build_hasher(&self) -> SeededHasher {
        SeededHasher {
            state: self.start,
            factor: self.factor,
        }
    }
}
