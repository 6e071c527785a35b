ghost use Rattle.std.specs.Prelude.{◌≡◌, ℕ, ◌<◌, ◌≢◌, false, length, slice_index, Some};
ghost use Rattle.cal_line.specs.Tokens.{spelled_text};

use cal_value::{OutOfMemory, Seq};
use memchr::memchr;
use std::alloc::Global;

/// For how many texts it is remembered where they stand.
const HINTS: usize = 16_384;

/// So many bytes of a text are hashed.
const MOST_HASHED: usize = 32;

/// By a hash of a text, where it may stand in a list. Whoever looks there tests that it does.
#[derive(Debug, Drop)]
pub(crate) struct Hints {
    places: Seq<u32>,
}

impl Hints {
    /// It takes no memory.
    pub(crate) fn new(alloc: Global) -> Hints {
        Hints {
            places: Seq::new(alloc),
        }
    }

    /// Where a text of this hash may stand.
    #[inline(always)]
    pub(crate) fn likely(&self, hash: usize) -> u32 {
        match self.places.get(hash) {
            Some(place) => *place,
            None => 0,
        }
    }

    /// Remembers where a text of this hash stands.
    pub(crate) fn keep(
        &mut self,
        alloc: Global,
        hash: usize,
        place: usize,
    ) -> Result<(), OutOfMemory> {
        if self.places.is_empty() {
            self.places = Seq::from_vec(vec![in alloc; 0; HINTS]?);
        }
        if place <= u32::MAX as usize
            && let Some(hint) = self.places.get_mut(hash)
        {
            *hint = place as u32;
        }
        Ok(())
    }
}

/// What one look at a text finds.
#[derive(Clone, Copy, Debug)]
pub(crate) struct Seen {
    /// A number below `HINTS`, the same for the same text.
    pub(crate) hash: usize,
    /// Whether a backslash stands in it.
    pub(crate) escapes: bool,
}

impl Seen {
    #[inline(always)]
    pub(crate) fn of(text: &str) -> Seen
        ensures { result.escapes ≡ false → spelled_text text.now ≡ Some text.now }
    {
        let bytes = text.as_bytes();
        if bytes.len() <= MOST_HASHED {
            return Seen::of_bytes(bytes);
        }
        let Seen { hash, escapes: _ } = Seen::of_bytes(&bytes[..MOST_HASHED]);
        match memchr(b'\\', bytes) {
            Some(_) => Seen {
                hash,
                escapes: true,
            },
            None => Seen {
                hash,
                escapes: false,
            },
        }
    }

    #[inline(always)]
    fn of_bytes(bytes: &[u8]) -> Seen
        ensures { result.escapes ≡ false → (k : ℕ) → k < length bytes.now
            → slice_index bytes.now k ≢ 92 }
    {
        let mut hash = bytes.len() as u64;
        let mut escapes = false;
        for byte in bytes {
            hash = hash.rotate_left(5) ^ u64::from(*byte);
            if *byte == b'\\' {
                escapes = true;
            }
        }
        Seen {
            hash: (hash.wrapping_mul(11400714819323198485) >> 50) as usize,
            escapes,
        }
    }
}
