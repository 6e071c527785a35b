ghost use Rattle.std.specs.Prelude.{◌≡◌, ℕ, List, ◌++◌, OnOk, codes, decimal, map, option_to_list};
ghost use Rattle.std.specs.Fmt.{signed_decimal};
ghost use Rattle.cal_line.specs.Escapes.{escaped};
ghost use Rattle.cal_value.specs.Values.{value_text};
ghost use Rattle.cal_write.specs.Lines.{field, node_line, record_line, written_value};

use crate::id_fields::IdFields;
use crate::page::Page;
use cal_context::Immediate;
use cal_value::{OutOfMemory, Text, Variant, print_value};
use itoa::{Buffer, Integer};

/// Appends the line of a node.
pub(crate) fn write_node(
    out: &mut Page,
    id: u32,
    attribute: u32,
    value: &Variant,
    parent: Option<u32>,
) -> Result<(), OutOfMemory>
    ensures { OnOk result (out.new ≡ out.old ++ node_line id attribute value.now parent) }
{
    out.put("__rec=node,id")?;
    out.put_equals(id)?;
    out.put(",attr")?;
    out.put_equals(attribute)?;
    out.put(",data")?;
    write_value(out, value)?;
    write_parent(out, parent)?;
    out.put("\n")?;
    Ok(())
}

/// Appends the line of a record, by the ids of its nodes and of its immediates' attributes.
#[inline(always)]
pub(crate) fn write_record(
    out: &mut Page,
    fields: &mut IdFields,
    sort: &str,
    nodes: &[u32],
    attributes: &[u32],
    imms: &[Immediate],
) -> Result<(), OutOfMemory>
    ensures { OnOk result (out.new ≡ out.old
        ++ record_line sort.now nodes.now attributes.now (map (λ i. i.value) imms.now)) }
{
    write_sort(out, sort)?;
    write_ids(out, ",ref", nodes)?;
    fields.write(out, attributes)?;
    write_values(out, imms)?;
    out.put("\n")?;
    Ok(())
}

/// Appends how a record's line begins. Nearly all are `ctx` lines, and a text that is known when
/// the program is built is appended without a call.
#[inline(always)]
fn write_sort(out: &mut Page, sort: &str) -> Result<(), OutOfMemory>
    ensures { OnOk result (out.new ≡ out.old ++ codes "__rec=" ++ sort.now) }
{
    if sort == "ctx" {
        out.put("__rec=ctx")?;
        return Ok(());
    }
    out.put("__rec=")?;
    out.put(sort)?;
    Ok(())
}

#[inline(always)]
fn write_parent(out: &mut Page, parent: Option<u32>) -> Result<(), OutOfMemory>
    ensures { OnOk result (out.new ≡ out.old
        ++ field (codes "parent") (map decimal (option_to_list parent))) }
{
    if let Some(id) = parent {
        out.put(",parent")?;
        out.put_equals(id)?;
    }
    Ok(())
}

/// Appends a field of these ids, or none where there is no id. The text before the first `=` is a
/// comma and the key.
#[inline(always)]
pub(crate) fn write_ids(out: &mut Page, start: &str, ids: &[u32]) -> Result<(), OutOfMemory>
    ensures { OnOk result ((key : List ℕ) → start.now ≡ codes "," ++ key
        → out.new ≡ out.old ++ field key (map decimal ids.now)) }
{
    if ids.is_empty() {
        return Ok(());
    }
    out.put(start)?;
    for id in ids {
        out.put_equals(*id)?;
    }
    Ok(())
}

/// Appends the field of immediates' values, or none where there is no immediate.
#[inline(always)]
fn write_values(out: &mut Page, imms: &[Immediate]) -> Result<(), OutOfMemory>
    ensures { OnOk result (out.new ≡ out.old
        ++ field (codes "data") (map written_value (map (λ i. i.value) imms.now))) }
{
    if imms.is_empty() {
        return Ok(());
    }
    out.put(",data")?;
    for imm in imms {
        write_value(out, &imm.value)?;
    }
    Ok(())
}

/// Appends an `=` and a value as it is written.
#[inline(always)]
fn write_value(out: &mut Page, value: &Variant) -> Result<(), OutOfMemory>
    ensures { OnOk result (out.new ≡ out.old ++ codes "=" ++ written_value value.now) }
{
    match value {
        Variant::Int(number) => write_int(out, *number),
        Variant::Uint(number) => write_uint(out, *number),
        Variant::Text(text) => write_text(out, text.as_str()),
        _ => write_other(out, value),
    }
}

/// Appends an `=` and a number. Most fit into 32 bits, whose digits take less time.
#[inline(always)]
fn write_int(out: &mut Page, number: i128) -> Result<(), OutOfMemory>
    ensures { OnOk result (out.new ≡ out.old ++ codes "=" ++ signed_decimal number) }
{
    if let Ok(small) = u32::try_from(number) {
        return out.put_equals(small);
    }
    write_long(out, number)
}

#[inline(always)]
fn write_uint(out: &mut Page, number: u64) -> Result<(), OutOfMemory>
    ensures { OnOk result (out.new ≡ out.old ++ codes "=" ++ decimal number) }
{
    if let Ok(small) = u32::try_from(number) {
        return out.put_equals(small);
    }
    write_long(out, number)
}

#[inline(never)]
fn write_long<I: Integer>(out: &mut Page, number: I) -> Result<(), OutOfMemory>
    ensures { OnOk result (out.new ≡ out.old ++ codes "=" ++ I.text number) }
{
    out.put("=")?;
    let mut digits = Buffer::new();
    out.put(digits.format(number))
}

#[inline(never)]
fn write_text(out: &mut Page, text: &str) -> Result<(), OutOfMemory>
    ensures { OnOk result (out.new ≡ out.old ++ codes "=" ++ escaped text.now) }
{
    out.put("=")?;
    out.put_escaped(text)
}

/// Appends an `=` and a value that is seldom met. The texts of most of them hold nothing to escape.
#[inline(never)]
fn write_other(out: &mut Page, value: &Variant) -> Result<(), OutOfMemory>
    ensures { OnOk result (out.new ≡ out.old ++ codes "=" ++ written_value value.now) }
{
    match value {
        Variant::Text(text) => write_text(out, text.as_str()),
        Variant::Real(text) => write_text(out, text.as_str()),
        Variant::Usr(text) => write_text(out, text.as_str()),
        Variant::Ptr(text) => write_text(out, text.as_str()),
        _ => write_printed(out, value),
    }
}

/// Appends an `=` and the text of a value, which is made beside.
fn write_printed(out: &mut Page, value: &Variant) -> Result<(), OutOfMemory>
    ensures { OnOk result (out.new ≡ out.old ++ codes "=" ++ value_text value.now) }
{
    let mut text = Text::new(out.allocator());
    print_value(value, &mut text)?;
    out.put("=")?;
    out.put(text.as_str())
}
