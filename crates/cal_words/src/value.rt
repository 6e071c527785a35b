ghost use Rattle.std.specs.Prelude.{◌≡◌, ℕ, ◌+◌, ◌*◌, ◌^◌, ◌<◌, length, slice_index};
ghost use Rattle.cal_value.specs.Kinds.{kind_node};
ghost use Rattle.cal_value.specs.Values.{kind_of};
ghost use Rattle.cal_words.specs.Records.{IsText, IsValue};
ghost use Rattle.cal_words.specs.Words.{number_words, text_length, value_words};

use crate::text::{byte_len, text_len, text_word};
use cal_value::{Text, Variant};

/// How many words a value has.
pub fn value_len(value: &Variant) -> u64
    ensures length { result ≡ length (value_words value.now) }
    ensures small { result < 2 ^ 61 }
{
    match value {
        Variant::Int(_) => 2,
        Variant::Fixed(_) => 2,
        Variant::Text(text) => text_len(text.as_str()),
        Variant::Real(text) => text_len(text.as_str()),
        Variant::Usr(text) => text_len(text.as_str()),
        Variant::Ptr(text) => text_len(text.as_str()),
        _ => 1,
    }
}

/// Word i of a value.
pub fn value_word(value: &Variant, i: u64) -> u64
    requires { i < length (value_words value.now) }
    ensures { result ≡ slice_index (value_words value.now) i }
{
    match value {
        Variant::Int(number) => half(*number, i),
        Variant::Fixed(nanos) => half(*nanos, i),
        Variant::Uint(number) => *number,
        Variant::Text(text) => text_word(text.as_str(), i),
        Variant::Bool(truth) => u64::from(*truth),
        Variant::Addr(address) => *address,
        Variant::Kind(kind) => kind.node(),
        Variant::Real(text) => text_word(text.as_str(), i),
        Variant::Usr(text) => text_word(text.as_str(), i),
        Variant::Ptr(text) => text_word(text.as_str(), i),
    }
}

/// The word of a value's kind and of its text's length in bytes, which is 0 of other values.
pub fn kind_word(value: &Variant) -> u64
    ensures { result ≡ kind_node (kind_of value.now) * 2 ^ 32 + text_length value.now }
{
    match value {
        Variant::Int(_) => 1 << 32,
        Variant::Uint(_) => 2 << 32,
        Variant::Text(text) => (3 << 32) + byte_len(text.as_str()),
        Variant::Bool(_) => 6 << 32,
        Variant::Addr(_) => 4 << 32,
        Variant::Kind(_) => 7 << 32,
        Variant::Real(text) => (5 << 32) + byte_len(text.as_str()),
        Variant::Fixed(_) => 5 << 32,
        Variant::Usr(text) => byte_len(text.as_str()),
        Variant::Ptr(text) => (11 << 32) + byte_len(text.as_str()),
    }
}

// The low or the high 64 bits of the two's complement.
fn half(number: i128, i: u64) -> u64
    requires { i < 2 }
    ensures { result ≡ slice_index (number_words number) i }
{
    let bits = number.cast_unsigned();
    if i == 0 {
        (bits % (1 << 64)) as u64
    } else {
        (bits / (1 << 64)) as u64
    }
}

/// A value is in the ranges of its types, where its text has fewer than 2^32 bytes.
pub fn know_value(value: &Variant)
    requires { text_length value.now < 2 ^ 32 }
    ensures { IsValue value.now }
{
    match value {
        Variant::Int(number) => {
            let _number = *number;
        }
        Variant::Fixed(nanos) => {
            let _nanos = *nanos;
        }
        Variant::Uint(number) => {
            let _number = *number;
        }
        Variant::Text(text) => know_text(text),
        Variant::Bool(_) => {}
        Variant::Addr(address) => {
            let _address = *address;
        }
        Variant::Kind(_) => {}
        Variant::Real(text) => know_text(text),
        Variant::Usr(text) => know_text(text),
        Variant::Ptr(text) => know_text(text),
    }
}

fn know_text(text: &Text)
    requires { length text.now < 2 ^ 32 }
    ensures { IsText text.now }
{
    know_bytes(text.as_str().as_bytes());
}

fn know_bytes(bytes: &[u8])
    ensures { (i : ℕ) → slice_index bytes.now i < 2 ^ 8 }
{
    let _length = bytes.len();
}
