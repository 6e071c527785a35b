ghost use Rattle.std.specs.Prelude.{◌≡◌, Some, IfOk, IsTrue};
ghost use Rattle.std.specs.Option.{ok_or};
ghost use Rattle.cal_line.specs.Tokens.{spelled_text};
ghost use Rattle.cal_value.specs.Reading.{uint_of, value_of};
ghost use Rattle.cal_script.specs.Parts.{allowed, is_allowed, is_short_number, number_said};
ghost use Rattle.cal_script.specs.Parts.{value_said};
ghost use Rattle.cal_script.specs.Steps.{Gives, uint_inside};
ghost use Rattle.cal_script.specs.declared.kind.ScriptKind.TheVariants as kinds;
ghost use Rattle.cal_value.specs.declared.variant.Variant.TheVariants as variant;

use crate::ScriptKind;
use crate::end::LineEnd;
use crate::hints::Seen;
use crate::said::{Said, SaidForm};
use cal_line::{FieldEnd, unescape};
use cal_value::{Kind, OutOfMemory, Text, ValueFault, Variant, parse_value};
use std::alloc::Global;

const LEAST: i128 = -9_223_372_036_854_775_808;

const GREATEST: i128 = 9_223_372_036_854_775_807;

const LONGEST_TEXT: usize = 4_096;

/// The text that a VALUE spells.
fn read_text(alloc: Global, spelled: &str) -> Result<Text, LineEnd>
    ensures { Gives (λ text. text) result (ok_or (spelled_text spelled.now) kinds.BadEscape) }
{
    match unescape(alloc, spelled) {
        Ok(text) => Ok(text),
        Err(FieldEnd::BadField) => Err(LineEnd::Bad(ScriptKind::BadEscape)),
        Err(FieldEnd::OutOfMemory) => Err(LineEnd::OutOfMemory),
    }
}

/// The value of a kind that a text writes.
#[inline(always)]
fn written_value(alloc: Global, kind: Kind, text: &str) -> Result<Variant, LineEnd>
    ensures { Gives (λ value. value) result (ok_or (value_of kind text.now) kinds.BadValue) }
{
    match parse_value(alloc, kind, text) {
        Ok(value) => Ok(value),
        Err(ValueFault::BadValue) => Err(LineEnd::Bad(ScriptKind::BadValue)),
        Err(ValueFault::OutOfMemory) => Err(LineEnd::OutOfMemory),
    }
}

/// The same for a text that is given away, which a value of the kind `string` keeps.
fn value_of_text(alloc: Global, kind: Kind, text: Text) -> Result<Variant, LineEnd>
    ensures { Gives (λ value. value) result (ok_or (value_of kind text) kinds.BadValue) }
{
    match kind {
        Kind::Str => Ok(Variant::Text(text)),
        _ => written_value(alloc, kind, text.as_str()),
    }
}

fn is_short_number(number: i128) -> bool
    ensures { result ≡ is_short_number number }
{
    number >= LEAST && number <= GREATEST
}

fn is_allowed(value: &Variant) -> bool
    ensures { result ≡ is_allowed value.now }
{
    match value {
        Variant::Int(number) => is_short_number(*number),
        Variant::Fixed(nanos) => is_short_number(*nanos),
        Variant::Text(text) => text.len() <= LONGEST_TEXT,
        Variant::Real(text) => text.len() <= LONGEST_TEXT,
        Variant::Uint(_) => true,
        Variant::Addr(_) => true,
        Variant::Bool(_) => true,
        _ => false,
    }
}

#[inline(always)]
fn allowed(value: Variant, hash: usize) -> Result<Said<'static>, LineEnd>
    ensures allowed { IfOk result (λ value. IsTrue (is_allowed value)) }
    ensures said { Gives (λ value. value) result (allowed value) }
{
    if !is_allowed(&value) {
        return Err(LineEnd::Bad(ScriptKind::BadValue));
    }
    Ok(Said {
        form: SaidForm::Value { value, hash },
    })
}

/// The value of a text of the kind `string` in which no backslash stands.
#[inline(always)]
fn allowed_text(text: &str, hash: usize) -> Result<Said<'_>, LineEnd>
    ensures allowed { IfOk result (λ value. IsTrue (is_allowed value)) }
    ensures said { Gives (λ value. value) result (allowed (variant.Text text.now)) }
{
    if text.len() > LONGEST_TEXT {
        return Err(LineEnd::Bad(ScriptKind::BadValue));
    }
    Ok(Said {
        form: SaidForm::Text { text, hash },
    })
}

/// The value of a kind that a VALUE says.
#[inline(always)]
pub(crate) fn read_value(alloc: Global, kind: Kind, spelled: &str) -> Result<Said<'_>, LineEnd>
    ensures allowed { IfOk result (λ value. IsTrue (is_allowed value)) }
    ensures said { Gives (λ value. value) result (value_said kind spelled.now) }
{
    let seen = Seen::of(spelled);
    if seen.escapes {
        return read_escaped(alloc, kind, spelled, seen.hash);
    }
    if let Kind::Str = kind {
        return allowed_text(spelled, seen.hash);
    }
    let value = written_value(alloc, kind, spelled)?;
    allowed(value, seen.hash)
}

/// The value of a kind that a VALUE with a backslash says.
fn read_escaped(
    alloc: Global,
    kind: Kind,
    spelled: &str,
    hash: usize,
) -> Result<Said<'static>, LineEnd>
    ensures allowed { IfOk result (λ value. IsTrue (is_allowed value)) }
    ensures said { Gives (λ value. value) result (value_said kind spelled.now) }
{
    let text = read_text(alloc, spelled)?;
    let value = value_of_text(alloc, kind, text)?;
    allowed(value, hash)
}

fn uint_inside(value: Variant) -> Option<u64>
    ensures { result ≡ uint_inside value }
{
    match value {
        Variant::Uint(number) => Some(number),
        _ => None,
    }
}

/// The number of at most 64 bits that a decimal writes.
#[tactic(auto, using(crate::proofs::Values::uint_read, crate::proofs::Values::uint_unread))]
pub fn read_decimal(alloc: Global, word: &str) -> Result<Option<u64>, OutOfMemory>
    ensures { IfOk result (λ number. number ≡ uint_of word.now) }
{
    match parse_value(alloc, Kind::Uint, word) {
        Ok(value) => Ok(uint_inside(value)),
        Err(ValueFault::BadValue) => Ok(None),
        Err(ValueFault::OutOfMemory) => Err(OutOfMemory),
    }
}

/// The number of a `tick`.
pub(crate) fn read_number(alloc: Global, word: &str) -> Result<u64, LineEnd>
    ensures { Gives (λ number. number) result (number_said word.now) }
{
    match read_decimal(alloc, word)? {
        Some(number) => Ok(number),
        None => Err(LineEnd::Bad(ScriptKind::BadValue)),
    }
}
