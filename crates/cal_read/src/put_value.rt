ghost use Rattle.std.specs.Prelude.{◌≡◌, ◌≤◌, length, IfOk, OnOk};
ghost use Rattle.std.specs.Str.{IsCharBoundary};
ghost use Rattle.cal_read.specs.UsualValues.{IsPut, PutsValue};

use crate::number_at::number_at;
use crate::spare::{copied, keep};
use crate::usual::{Unusual, plain_end};
use cal_context::{AttributeNumber, Immediate};
use cal_value::{Kind, OutOfMemory, Text, Variant, parse_value};
use std::alloc::Global;
use std::mem;

/// Pairs an attribute with the value of its kind that the text at a place writes, in which nothing
/// is escaped: as the immediate at an index, where one may stand already. It answers where the text
/// ends.
#[inline(always)]
pub(crate) fn put_value_at(
    alloc: Global,
    kind: Kind,
    attribute: AttributeNumber,
    line: &str,
    start: usize,
    spare: &mut Vec<Text>,
    imms: &mut Vec<Immediate>,
    index: usize,
) -> Result<usize, Unusual>
    requires within { start ≤ length line.now }
    requires boundary { IsCharBoundary line.now start }
    requires index { index ≤ length imms.old.items }
    ensures { IfOk result (λ end.
        PutsValue kind attribute line.now start end imms.old.items index imms.new.items) }
{
    match kind {
        Kind::Uint => {
            if let Some(at) = number_at(line, start) {
                let value = Variant::Uint(at.number);
                put(imms, index, Immediate { attribute, value }, spare)?;
                return Ok(at.end);
            }
        }
        Kind::Int => {
            if let Some(at) = number_at(line, start) {
                let value = Variant::Int(i128::from(at.number));
                put(imms, index, Immediate { attribute, value }, spare)?;
                return Ok(at.end);
            }
        }
        Kind::Str => {
            let end = plain_end(line, start);
            put_text(alloc, attribute, &line[start..end], spare, imms, index)?;
            return Ok(end);
        }
        _ => {}
    }
    put_other_at(alloc, kind, attribute, line, start, spare, imms, index)
}

/// The same of any value.
#[inline(never)]
fn put_other_at(
    alloc: Global,
    kind: Kind,
    attribute: AttributeNumber,
    line: &str,
    start: usize,
    spare: &mut Vec<Text>,
    imms: &mut Vec<Immediate>,
    index: usize,
) -> Result<usize, Unusual>
    requires within { start ≤ length line.now }
    requires boundary { IsCharBoundary line.now start }
    requires index { index ≤ length imms.old.items }
    ensures { IfOk result (λ end.
        PutsValue kind attribute line.now start end imms.old.items index imms.new.items) }
{
    let end = plain_end(line, start);
    let value = parse_value(alloc, kind, &line[start..end])?;
    put(imms, index, Immediate { attribute, value }, spare)?;
    Ok(end)
}

/// Puts a text: into the memory of that which stands there, if one does.
#[inline(always)]
fn put_text(
    alloc: Global,
    attribute: AttributeNumber,
    text: &str,
    spare: &mut Vec<Text>,
    imms: &mut Vec<Immediate>,
    index: usize,
) -> Result<(), OutOfMemory>
    requires { index ≤ length imms.old.items }
    ensures { OnOk result (IsPut imms.old.items index
        (record { attribute = attribute; value = Variant.Text text.now }) imms.new.items) }
{
    if index < imms.len() {
        let imm = &mut imms[index];
        if let Variant::Text(there) = &mut imm.value {
            there.truncate(0);
            there.push_str(text)?;
            imm.attribute = attribute;
            return Ok(());
        }
    }
    let value = Variant::Text(copied(alloc, spare, text)?);
    put(imms, index, Immediate { attribute, value }, spare)
}

/// Puts an immediate in place of that which stands there, if one does.
#[inline(always)]
fn put(
    imms: &mut Vec<Immediate>,
    index: usize,
    imm: Immediate,
    spare: &mut Vec<Text>,
) -> Result<(), OutOfMemory>
    requires { index ≤ length imms.old.items }
    ensures { OnOk result (IsPut imms.old.items index imm imms.new.items) }
{
    if index < imms.len() {
        let there = &mut imms[index];
        if is_whole(&there.value) {
            *there = imm;
            return Ok(());
        }
        return put_over(there, imm, spare);
    }
    imms.push(imm)?;
    Ok(())
}

/// Puts an immediate in place of another one, and keeps the memory of its text.
#[inline(never)]
fn put_over(there: &mut Immediate, imm: Immediate, spare: &mut Vec<Text>) -> Result<(), OutOfMemory>
    ensures { OnOk result (there.new ≡ imm) }
{
    let old = mem::replace(there, imm);
    keep(spare, old.value)
}

/// Whether a value is a whole number, which has no memory that serves again.
#[inline(always)]
fn is_whole(value: &Variant) -> bool {
    match value {
        Variant::Int(_) | Variant::Uint(_) => true,
        _ => false,
    }
}
