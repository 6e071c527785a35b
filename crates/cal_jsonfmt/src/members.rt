ghost use Rattle.std.specs.Prelude.{◌≡◌, ◌<◌, List, length, map, None, Some, MatchOption, OnOk};
ghost use Rattle.std.specs.Prelude.{slice_index_or};
ghost use Rattle.cal_value.specs.declared.record.Rec.{Rec};
ghost use Rattle.cal_value.specs.declared.variant.Variant.{Variant};
ghost use Rattle.cal_rowset.specs.Cells.{shown_values};
ghost use Rattle.cal_rowset.specs.Showing.{ShowsRow, nth_column};
ghost use Rattle.cal_jsonfmt.specs.Choosing.{AreWithin, IsWithin, ShowsCell, members_of, value_at};
ghost use Rattle.cal_jsonfmt.specs.Json.{json_of, object_json};
ghost use Rattle.cal_jsonfmt.specs.Writing.{WritesIf, WritesValue};

use crate::value::write_value;
use cal_rowset::{Cell, Column, ShownRow};
use cal_value::{OutOfMemory, Text};
use json::Writer;

/// The cell in a column of a row, if it is there.
pub(crate) fn cell_at<'a>(columns: &[Column], place: usize, shown: &'a ShownRow) -> Option<&'a Cell>
    requires { place < length columns.now }
    ensures { (row : Rec) → ShowsRow shown.now columns.now row → MatchOption result
        (value_at columns.now row (Some place) ≡ None)
        (λ cell. ShowsCell cell.now (shown_values row (nth_column columns.now place).name)) }
{
    let cell = shown.cell(place)?;
    if cell.is_empty() {
        return None;
    }
    Some(cell)
}

/// Writes the object of a row: under each key the cell of the column that is chosen.
pub(crate) fn write_object(
    writer: &mut Writer,
    columns: &[Column],
    keys: &[Text],
    chosen: &[Option<usize>],
    shown: &ShownRow,
) -> Result<(), OutOfMemory>
    requires counted { length chosen.now ≡ length keys.now }
    requires within { AreWithin columns.now chosen.now }
    ensures { OnOk result ((row : Rec) → ShowsRow shown.now columns.now row
        → WritesValue writer.old writer.new
        (object_json (members_of keys.now (map (value_at columns.now row) chosen.now)))) }
{
    writer.begin_object()?;
    for (place, key) in keys.iter().enumerate() {
        write_chosen(writer, columns, key, chosen_at(chosen, place), shown)?;
    }
    writer.end_object()?;
    Ok(())
}

fn chosen_at(chosen: &[Option<usize>], place: usize) -> Option<usize>
    requires { place < length chosen.now }
    ensures { result ≡ slice_index_or chosen.now place None }
{
    chosen[place]
}

/// Writes the member of a key for which a column is chosen.
fn write_chosen(
    writer: &mut Writer,
    columns: &[Column],
    key: &Text,
    column: Option<usize>,
    shown: &ShownRow,
) -> Result<(), OutOfMemory>
    requires { IsWithin columns.now column }
    ensures { OnOk result ((row : Rec) → ShowsRow shown.now columns.now row
        → WritesIf writer.old writer.new key.now (value_at columns.now row column)) }
{
    let Some(place) = column else {
        return Ok(());
    };
    match cell_at(columns, place, shown) {
        Some(cell) => write_member(writer, key, cell),
        None => Ok(()),
    }
}

fn write_member(writer: &mut Writer, key: &Text, cell: &Cell) -> Result<(), OutOfMemory>
    ensures { OnOk result ((vs : List Variant) → ShowsCell cell.now vs
        → WritesIf writer.old writer.new key.now (json_of vs)) }
{
    writer.key(key.as_str())?;
    write_value(writer, cell)
}
