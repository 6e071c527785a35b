//! Texts as words: eight bytes to a word, the first lowest.
ghost use Rattle.std.specs.Prelude.{◌≡◌, ◌+◌, ◌*◌, ◌^◌, ◌<◌, drop, length, slice_index};
ghost use Rattle.std.specs.Int.{from_le_bytes, w64};
ghost use Rattle.cal_words.specs.Words.{text_words};

/// How many words a text has.
pub fn text_len(text: &str) -> u64
    ensures length { result ≡ length (text_words text.now) }
    ensures small { result < 2 ^ 61 }
{
    (byte_len(text) + 7) / 8
}

/// Its length in bytes.
pub(crate) fn byte_len(text: &str) -> u64
    ensures length { result ≡ length text.now }
    ensures small { result < 2 ^ 63 }
{
    text.as_bytes().len() as u64
}

/// Word i of a text: eight bytes from 8 * i on, and 0 for each that isn't left.
pub fn text_word(text: &str, i: u64) -> u64
    requires { i < length (text_words text.now) }
    ensures { result ≡ slice_index (text_words text.now) i }
{
    word_at(text.as_bytes(), 8 * i as usize)
}

// The number of eight bytes from a place on: one load, where so many are left.
fn word_at(bytes: &[u8], start: usize) -> u64
    requires { start < length bytes.now }
    ensures { result ≡ from_le_bytes w64 (drop start bytes.now) }
{
    let bytes = &bytes[start..];
    if bytes.len() >= 8 {
        return u64::from_le_bytes([
            bytes[0], bytes[1], bytes[2], bytes[3], bytes[4], bytes[5], bytes[6], bytes[7],
        ]);
    }
    u64::from_le_bytes([
        byte_at(bytes, 0),
        byte_at(bytes, 1),
        byte_at(bytes, 2),
        byte_at(bytes, 3),
        byte_at(bytes, 4),
        byte_at(bytes, 5),
        byte_at(bytes, 6),
        byte_at(bytes, 7),
    ])
}

// The byte at a place, and 0 where none is left.
fn byte_at(bytes: &[u8], place: usize) -> u8
    ensures { result ≡ slice_index bytes.now place }
{
    bytes.get(place).copied().unwrap_or(0)
}
