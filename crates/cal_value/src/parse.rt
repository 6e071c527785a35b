ghost use Rattle.std.specs.Prelude.{◌≡◌, ◌↔◌, ◌≤◌, ◌^◌, IfOk, IfSome, IsErrOf, IsSomeAnd, IsTrue};
ghost use Rattle.std.specs.Prelude.{None, Some, unsigned_abs};
ghost use Rattle.cal_value.specs.Reading.{IsProper, IsSmall, address_of, hexadecimal_of, int_of};
ghost use Rattle.cal_value.specs.Reading.{is_textual, truth_of, uint_of, value_of};
ghost use Rattle.cal_value.specs.Values.{kind_of};
ghost use Rattle.cal_value.specs.declared.parse.ValueFault.TheVariants as fault;

use crate::digits::{MOST, read_number};
use crate::fixed_read::read_fixed;
use crate::{Kind, OutOfMemory, Text, Variant};
use std::alloc::Global;
use thiserror::Error;

/// Why a text gave no value.
#[derive(Clone, Copy, Debug, PartialEq, Eq, Error)]
pub enum ValueFault {
    #[error("the text is no value of its kind")]
    BadValue,
    #[error("out of memory")]
    OutOfMemory,
}

impl From<OutOfMemory> for ValueFault {
    ghost from_gives = { λ _ e. e ≡ fault.OutOfMemory };

    fn from(_error: OutOfMemory) -> ValueFault {
        ValueFault::OutOfMemory
    }
}

/// The value of a kind that a text writes. Only a text takes memory.
pub fn parse_value(alloc: Global, kind: Kind, text: &str) -> Result<Variant, ValueFault>
    ensures value { IfOk result (λ value. value_of kind text.now ≡ Some value) }
    ensures kind { IfOk result (λ value. kind_of value ≡ kind) }
    ensures small { IfOk result IsSmall }
    ensures proper { IfOk result IsProper }
    ensures bad { IsErrOf result ValueFault.BadValue ↔ (value_of kind text.now ≡ None) }
    ensures memory { IsErrOf result ValueFault.OutOfMemory
        → IsSomeAnd (value_of kind text.now) (λ value. IsTrue (is_textual value)) }
{
    let bytes = text.as_bytes();
    let value = match kind {
        Kind::Usr => Some(Variant::Usr(Text::from_str(alloc, text)?)),
        Kind::Int => read_int(bytes).map(Variant::Int),
        Kind::Uint => read_uint(bytes).map(Variant::Uint),
        Kind::Str => Some(Variant::Text(Text::from_str(alloc, text)?)),
        Kind::Addr => read_address(bytes).map(Variant::Addr),
        Kind::Double => Some(match read_fixed(bytes) {
            Some(nanos) => Variant::Fixed(nanos),
            None => Variant::Real(Text::from_str(alloc, text)?),
        }),
        Kind::Bool => read_truth(text).map(Variant::Bool),
        Kind::TypeName => Kind::from_name(text).map(Variant::Kind),
        Kind::Ptr => Some(Variant::Ptr(Text::from_str(alloc, text)?)),
    };
    value.ok_or(ValueFault::BadValue)
}

fn read_int(text: &[u8]) -> Option<i128>
    ensures value { result ≡ int_of text.now }
    ensures small { IfSome result (λ number. unsigned_abs number ≤ 2 ^ 86) }
{
    if text.starts_with(b"-") {
        read_number(&text[1..], 10, MOST).map(|number| -(number as i128))
    } else {
        read_number(text, 10, MOST).map(|number| number as i128)
    }
}

fn read_uint(text: &[u8]) -> Option<u64>
    ensures { result ≡ uint_of text.now }
{
    read_number(text, 10, u128::from(u64::MAX)).map(|number| number as u64)
}

fn read_address(text: &[u8]) -> Option<u64>
    ensures { result ≡ address_of text.now }
{
    if text.starts_with(b"0x") {
        read_hexadecimal(&text[2..])
    } else {
        read_hexadecimal(text)
    }
}

fn read_hexadecimal(digits: &[u8]) -> Option<u64>
    ensures { result ≡ hexadecimal_of digits.now }
{
    if digits.len() > 16 {
        return None;
    }
    read_number(digits, 16, u128::from(u64::MAX)).map(|number| number as u64)
}

fn read_truth(text: &str) -> Option<bool>
    ensures { result ≡ truth_of text.now }
{
    match text {
        "true" => Some(true),
        "1" => Some(true),
        "false" => Some(false),
        "0" => Some(false),
        _ => None,
    }
}
