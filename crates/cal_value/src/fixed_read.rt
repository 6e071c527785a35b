ghost use Rattle.std.specs.Prelude.{◌≡◌, ◌≤◌, ◌^◌, IfSome, length, unsigned_abs};
ghost use Rattle.std.specs.List.{position, position_or_len};
ghost use Rattle.cal_value.specs.Decimals.{decimal_nanos, digits_nanos, fixed_of, is_point};
ghost use Rattle.cal_value.specs.Decimals.{parts_nanos, rest_nanos};
ghost use Rattle.cal_value.specs.Numerals.{at_most};

use crate::digits::{MOST, read_number};

/// The nano-units that a decimal with an optional minus writes, of a magnitude of at most 2^86.
pub(crate) fn read_fixed(text: &[u8]) -> Option<i128>
    ensures value { result ≡ fixed_of text.now }
    ensures small { IfSome result (λ nanos. unsigned_abs nanos ≤ 2 ^ 86) }
{
    if text.starts_with(b"-") {
        read_nanos(&text[1..]).map(|nanos| -(nanos as i128))
    } else {
        read_nanos(text).map(|nanos| nanos as i128)
    }
}

fn read_nanos(text: &[u8]) -> Option<u128>
    ensures value { result ≡ at_most (2 ^ 86) (decimal_nanos text.now) }
    ensures bound { IfSome result (λ nanos. nanos ≤ 2 ^ 86) }
{
    let (whole, rest) = text.split_at(whole_len(text));
    read_parts(whole, rest)
}

// How long the whole part is.
fn whole_len(text: &[u8]) -> usize
    ensures place { result ≡ position_or_len is_point text.now }
    ensures within { result ≤ length text.now }
{
    point_place(text).unwrap_or(text.len())
}

fn point_place(text: &[u8]) -> Option<usize>
    ensures { result ≡ position is_point text.now }
{
    text.iter().position(|byte| *byte == b'.')
}

fn read_parts(whole: &[u8], rest: &[u8]) -> Option<u128>
    ensures value { result ≡ at_most (2 ^ 86) (parts_nanos whole.now rest.now) }
    ensures bound { IfSome result (λ nanos. nanos ≤ 2 ^ 86) }
{
    let whole = read_number(whole, 10, MOST / 1_000_000_000)?;
    let rest = read_rest(rest)?;
    let nanos = whole * 1_000_000_000 + u128::from(rest);
    if nanos > MOST { None } else { Some(nanos) }
}

fn read_rest(text: &[u8]) -> Option<u64>
    ensures { result ≡ rest_nanos text.now }
{
    match text.split_first() {
        None => Some(0),
        Some((_point, digits)) => read_behind(digits),
    }
}

fn read_behind(digits: &[u8]) -> Option<u64>
    ensures { result ≡ digits_nanos digits.now }
{
    if digits.len() > 9 {
        return None;
    }
    let number = read_number(digits, 10, 999_999_999)?;
    Some(number as u64 * 10u64.pow(9 - digits.len() as u32))
}
