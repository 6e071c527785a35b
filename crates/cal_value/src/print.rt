ghost use Rattle.std.specs.Prelude.{◌≡◌, ◌++◌, OnOk, OnErr};
ghost use Rattle.cal_value.specs.Reading.{IsInRange};
ghost use Rattle.cal_value.specs.Values.{address_text, value_text};

use crate::fixed_text::print_fixed;
use crate::{OutOfMemory, Text, Variant};
use itoa::{Buffer, Integer};

/// Appends the text of a value. An `Err` leaves `out`.
pub fn print_value(value: &Variant, out: &mut Text) -> Result<(), OutOfMemory>
    ensures ok { OnOk result (out.new ≡ out.old ++ value_text value.now) }
    ensures err { OnErr result (out.new ≡ out.old) }
    ensures range { IsInRange value.now }
{
    match value {
        Variant::Int(number) => print_number(*number, out),
        Variant::Uint(number) => print_number(*number, out),
        Variant::Text(text) => out.push_str(text.as_str()),
        Variant::Bool(truth) => out.push_str(if *truth { "true" } else { "false" }),
        Variant::Addr(address) => print_address(*address, out),
        Variant::Kind(kind) => out.push_str(kind.name()),
        Variant::Real(text) => out.push_str(text.as_str()),
        Variant::Fixed(nanos) => print_fixed(*nanos, out),
        Variant::Usr(text) => out.push_str(text.as_str()),
        Variant::Ptr(text) => out.push_str(text.as_str()),
    }
}

fn print_number<I: Integer>(number: I, out: &mut Text) -> Result<(), OutOfMemory>
    ensures ok { OnOk result (out.new ≡ out.old ++ I.text number) }
    ensures err { OnErr result (out.new ≡ out.old) }
{
    let mut digits = Buffer::new();
    out.push_str(digits.format(number))
}

// `out` is to stay as it was on an error, so the text is made beside it.
fn print_address(address: u64, out: &mut Text) -> Result<(), OutOfMemory>
    ensures ok { OnOk result (out.new ≡ out.old ++ address_text address) }
    ensures err { OnErr result (out.new ≡ out.old) }
{
    let text = format!(in out.allocator(); "0x{address:x}")?;
    out.push_str(text.as_str())
}
