ghost use Rattle.std.specs.Prelude.{◌≡◌, map, IfOk, IsUtf8, OnOk};
ghost use Rattle.cal_rowset.specs.Showing.{IsFor};
ghost use Rattle.cal_jsonfmt.specs.Choosing.{AreFor};
ghost use Rattle.cal_jsonfmt.specs.Json.{array_json, json, row_json};
ghost use Rattle.cal_jsonfmt.specs.Writing.{WritesValue};

use crate::objects::Objects;
use cal_rowset::{Answer, Column, ShownRow};
use cal_value::{OutOfMemory, Text};
use json::Writer;
use std::alloc::Global;

/// The answer as one line of JSON. It takes time in the rows' entries, and for each row in the
/// columns, and keeps no row: its memory is that of the text.
pub fn json_text<A: Answer>(alloc: Global, answer: &A) -> Result<Text, OutOfMemory>
    ensures { IfOk result (λ text. text ≡ json (A.answer answer.now)) }
{
    let mut writer = Writer::new(Vec::new(alloc));
    write_rows(alloc, &mut writer, answer)?;
    let mut text = utf8_text(writer.into_inner());
    text.push_str("\n")?;
    Ok(text)
}

fn utf8_text(bytes: Vec<u8>) -> Text
    requires { IsUtf8 bytes.items }
    ensures { result ≡ bytes.items }
{
    Text::from_string(String::from_utf8(bytes).unwrap())
}

/// Writes an array with the object of each row.
fn write_rows<A: Answer>(alloc: Global, writer: &mut Writer, answer: &A) -> Result<(), OutOfMemory>
    ensures { OnOk result (WritesValue writer.old writer.new
        (array_json (map (row_json (A.answer answer.now).columns)
        (A.answer answer.now).rows.rows))) }
{
    let columns = answer.columns();
    let mut objects = Objects::new(alloc, columns)?;
    let mut shown = answer.cells(alloc, columns)?;
    write_array(writer, columns, answer, &mut objects, &mut shown)
}

/// Writes the array, of the objects of rows that are shown one after another.
fn write_array<A: Answer>(
    writer: &mut Writer,
    columns: &[Column],
    answer: &A,
    objects: &mut Objects,
    shown: &mut ShownRow,
) -> Result<(), OutOfMemory>
    requires objects { AreFor objects.old columns.now }
    requires shown { IsFor shown.old columns.now }
    requires ready { A.is_ready answer.now shown.old }
    ensures { OnOk result (WritesValue writer.old writer.new
        (array_json (map (row_json columns.now) (A.answer answer.now).rows.rows))) }
{
    writer.begin_array()?;
    for place in 0..answer.row_count() {
        answer.show(place, shown)?;
        objects.write(writer, columns, shown)?;
    }
    writer.end_array()?;
    Ok(())
}
