//! The hasher: as the library's own, but from a start and by a factor that are given.

use crate::reading::{folded_multiply, read_short, read_u64};
use std::hash::Hasher;

/// A hash of what was written so far. It takes a multiplication for each number that is written, and
/// for each sixteen bytes of a text.
#[derive(Clone, Copy, Debug, Drop)]
pub struct SeededHasher {
    pub(crate) state: u64,
    pub(crate) factor: u64,
}

impl Hasher for SeededHasher {
    ghost use Rattle.cal_seeds.specs.Seeds.{write as written};

    ghost write = { written };

    ghost finish = { λ h. h.state };

    #[inline(always)]
    fn finish(&self) -> u64 {
        self.state
    }

    #[inline]
    fn write(&mut self, bytes: &[u8]) {
        let len = bytes.len();
        let mut state = self.state.wrapping_add(len as u64);
        if len <= 8 {
            self.state = folded_multiply(state ^ read_short(bytes), self.factor);
            return;
        }
        let mut at = 0;
        while len - at > 16 {
            state = folded_multiply(
                read_u64(bytes, at) ^ state,
                read_u64(bytes, at + 8) ^ self.factor,
            );
            at += 16;
        }
        self.state = folded_multiply(
            read_u64(bytes, len.saturating_sub(16)) ^ state,
            read_u64(bytes, len - 8) ^ self.factor,
        );
    }
}
