ghost use Rattle.std.specs.Prelude.{◌≡◌, OnOk};
ghost use Rattle.std.specs.Fmt.{signed_decimal};
ghost use Rattle.cal_rowset.specs.declared.cell.Content.TheVariants as content;
ghost use Rattle.cal_jsonfmt.specs.Choosing.{IsSpelled};
ghost use Rattle.cal_jsonfmt.specs.Json.{value_json};
ghost use Rattle.cal_jsonfmt.specs.Strings.{string_json};
ghost use Rattle.cal_jsonfmt.specs.Writing.{WritesValue};

use cal_rowset::{Cell, Content};
use cal_value::{OutOfMemory, Text};
use json::Writer;

/// Writes what a cell that is there is in JSON.
pub(crate) fn write_value(writer: &mut Writer, cell: &Cell) -> Result<(), OutOfMemory>
    ensures { OnOk result (IsSpelled cell.now
        → WritesValue writer.old writer.new
        (value_json cell.now.content cell.now.text)) }
{
    match cell.content {
        Content::Nothing => write_text(writer, &cell.text),
        Content::Whole(number) => write_number(writer, number, &cell.text),
        Content::Decimal => write_text(writer, &cell.text),
        Content::Words => write_text(writer, &cell.text),
    }
}

/// Writes a number that 64 bits hold, or else its text.
fn write_number(writer: &mut Writer, number: i128, text: &Text) -> Result<(), OutOfMemory>
    ensures { OnOk result (text.now ≡ signed_decimal number
        → WritesValue writer.old writer.new
        (value_json (content.Whole number) text.now)) }
{
    if 0 <= number && number <= 18_446_744_073_709_551_615 {
        writer.u64(number as u64)?;
        return Ok(());
    }
    if -9_223_372_036_854_775_808 <= number && number < 0 {
        writer.i64(number as i64)?;
        return Ok(());
    }
    write_text(writer, text)
}

fn write_text(writer: &mut Writer, text: &Text) -> Result<(), OutOfMemory>
    ensures { OnOk result (WritesValue writer.old writer.new
        (string_json text.now)) }
{
    writer.string(text.as_str())?;
    Ok(())
}
