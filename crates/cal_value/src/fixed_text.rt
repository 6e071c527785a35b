ghost use Rattle.std.specs.Prelude.{◌≡◌, ◌++◌, ◌<◌, ◌^◌, OnOk, OnErr, length, take};
ghost use Rattle.cal_value.specs.Decimals.{decimal_text, digits_behind, fixed_text, rest_text};

use crate::{OutOfMemory, Text};
use itoa::Buffer;

/// Appends nano-units as a decimal. An `Err` leaves `out`.
pub(crate) fn print_fixed(nanos: i128, out: &mut Text) -> Result<(), OutOfMemory>
    ensures ok { OnOk result (out.new ≡ out.old ++ fixed_text nanos) }
    ensures err { OnErr result (out.new ≡ out.old) }
{
    let before = out.as_str().len();
    let pushed = push_fixed(nanos, out);
    if pushed.is_err() {
        out.truncate(before);
    }
    pushed
}

// An `Err` leaves a part of the decimal behind what was there.
fn push_fixed(nanos: i128, out: &mut Text) -> Result<(), OutOfMemory>
    ensures ok { OnOk result (out.new ≡ out.old ++ fixed_text nanos) }
    ensures err { take (length out.old) out.new ≡ out.old }
{
    if nanos < 0 {
        out.push_str("-")?;
    }
    push_decimal(nanos.unsigned_abs(), out)
}

fn push_decimal(nanos: u128, out: &mut Text) -> Result<(), OutOfMemory>
    ensures ok { OnOk result (out.new ≡ out.old ++ decimal_text nanos) }
    ensures err { take (length out.old) out.new ≡ out.old }
{
    let mut digits = Buffer::new();
    out.push_str(digits.format(nanos / 1_000_000_000))?;
    push_rest((nanos % 1_000_000_000) as u32, out)
}

fn push_rest(rest: u32, out: &mut Text) -> Result<(), OutOfMemory>
    requires { rest < 10 ^ 9 }
    ensures ok { OnOk result (out.new ≡ out.old ++ rest_text rest) }
    ensures err { take (length out.old) out.new ≡ out.old }
{
    if rest > 0 {
        out.push_str(".")?;
        push_digits(rest, out)?;
    }
    Ok(())
}

fn push_digits(mut rest: u32, out: &mut Text) -> Result<(), OutOfMemory>
    requires { rest < 10 ^ 9 }
    ensures ok { OnOk result (out.new ≡ out.old ++ digits_behind 9 rest) }
    ensures err { take (length out.old) out.new ≡ out.old }
{
    let mut worth = 1_000_000_000;
    for _place in 0..9u32 {
        if rest == 0 {
            return Ok(());
        }
        worth /= 10;
        out.push(char::from(b'0' + (rest / worth) as u8))?;
        rest %= worth;
    }
    Ok(())
}
