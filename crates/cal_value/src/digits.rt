ghost use Rattle.std.specs.Prelude.{◌≡◌, ◌^◌, ◌≤◌, IfSome};
ghost use Rattle.cal_value.specs.Numerals.{at_most, number_of};

/// The greatest magnitude that a number is read with, 2^86.
pub(crate) const MOST: u128 = 77371252455336267181195264;

/// The number that digits of a base write, where it is at most `most`. It reads no further than
/// that.
pub(crate) fn read_number(digits: &[u8], base: u32, most: u128) -> Option<u128>
    requires base_low { 2 ≤ base }
    requires base_high { base ≤ 16 }
    requires room { most ≤ 2 ^ 86 }
    ensures value { result ≡ at_most most (number_of base digits.now) }
    ensures bound { IfSome result (λ number. number ≤ most) }
{
    if digits.is_empty() {
        return None;
    }
    let mut number = 0u128;
    for byte in digits {
        let Some(digit) = char::from(*byte).to_digit(base) else {
            return None;
        };
        number = number * u128::from(base) + u128::from(digit);
        if number > most {
            return None;
        }
    }
    Some(number)
}
