ghost use Rattle.std.specs.Prelude.{◌≡◌, ◌==◌, ℕ, ◌<◌, List, length, slice_index};

use crate::RecSort;

/// A record, read as its words. No call takes memory.
pub trait Packed<S: RecSort> {
    ghost words: { Self → List ℕ };

    fn len(&self) -> u64
        ensures { result ≡ length (words self.now) };

    fn word(&self, i: u64) -> u64
        requires { i < length (words self.now) }
        ensures { result ≡ slice_index (words self.now) i };

    fn matches(&self, i: u64, w: u64) -> bool
        requires { i < length (words self.now) }
        ensures { result ≡ (slice_index (words self.now) i == w) };

    /// The slot at which the search for the record begins. It takes time in the number of words.
    fn home(&self, homes: u64) -> u64
        requires { 0 < homes }
        ensures home { result ≡ S.home_of homes (words self.now) }
        ensures below { result < homes };
}
