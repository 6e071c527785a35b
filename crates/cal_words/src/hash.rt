//! The hash of a list of words, one word after another: the hash of Fowler, Noll and Vo, over words
//! in place of bytes (our own rule).
ghost use Rattle.std.specs.Prelude.{◌≡◌, []};
ghost use Rattle.cal_words.specs.Homes.{mixed, words_hash};

/// The hash of no word.
pub fn start_hash() -> u64
    ensures { result ≡ words_hash [] }
{
    14695981039346656037
}

/// The hash with one word more.
pub fn hash_word(hash: u64, word: u64) -> u64
    ensures { result ≡ mixed hash word }
{
    (hash ^ word).wrapping_mul(1099511628211)
}
