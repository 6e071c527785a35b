ghost use Rattle.std.specs.Prelude.{◌≡◌, ℕ, ◌<◌, List, [], ◌∷◌, ◌++◌, length, Some};
ghost use Rattle.std.specs.Prelude.{option_to_list, IfOk, OnOk};
ghost use Rattle.cal_value.specs.declared.record.Rec.{Rec};
ghost use Rattle.cal_rowset.specs.Showing.{ShowsRow, nth_column};
ghost use Rattle.cal_rowset.specs.declared.rowset.Column as columns;
ghost use Rattle.cal_tabfmt.specs.Expand.{expand_line, expand_lines, part_of};
ghost use Rattle.cal_tabfmt.specs.Parts.{HasParts, column_fronts, part_front};

use crate::part::{append_behind, append_front};
use cal_rowset::{Answer, Column, ShownRow};
use cal_value::{OutOfMemory, Text};
use std::alloc::Global;

/// The lines of an answer's rows in these columns. What stands before a column's texts is written
/// once, for all rows.
pub(crate) fn column_lines<A: Answer>(
    alloc: Global,
    columns: &[Column],
    answer: &A,
) -> Result<Text, OutOfMemory>
    ensures { IfOk result (λ text. text
        ≡ expand_lines (Some columns.now) (A.answer answer.now).rows.rows) }
{
    let mut out = Text::new(alloc);
    let fronts = fronts(alloc, columns)?;
    let mut shown = answer.cells(alloc, columns)?;
    for place in 0..answer.row_count() {
        answer.show(place, &mut shown)?;
        append_line(&mut out, &fronts, &shown)?;
    }
    Ok(out)
}

/// What stands before the texts of each column.
fn fronts(alloc: Global, columns: &[Column]) -> Result<Vec<Text>, OutOfMemory>
    ensures { IfOk result (λ fronts. fronts.items ≡ column_fronts columns.now) }
{
    let mut fronts = Vec::new(alloc);
    for column in columns {
        fronts.push(front(alloc, &column.header)?)?;
    }
    Ok(fronts)
}

fn front(alloc: Global, header: &Text) -> Result<Text, OutOfMemory>
    ensures { IfOk result (λ front. front ≡ part_front header.now) }
{
    let mut front = Text::new(alloc);
    append_front(&mut front, header)?;
    Ok(front)
}

/// Appends the line of a row, which is shown in columns with these fronts.
fn append_line(out: &mut Text, fronts: &[Text], shown: &ShownRow) -> Result<(), OutOfMemory>
    ensures { OnOk result ((columns : List columns.Column) (row : Rec)
        → ShowsRow shown.now columns row → fronts.now ≡ column_fronts columns
        → out.new ≡ out.old ++ (expand_line (Some columns) row ++ 10 ∷ [])) }
{
    let mut is_first = true;
    for (place, front) in fronts.iter().enumerate() {
        is_first = append_column(out, is_first, front, place, shown)?;
    }
    out.push_str("\n")
}

/// Appends the part of a column.
fn append_column(
    out: &mut Text,
    is_first: bool,
    front: &Text,
    place: usize,
    shown: &ShownRow,
) -> Result<bool, OutOfMemory>
    ensures { IfOk result (λ first. (columns : List columns.Column) (row : Rec) (before : List ℕ)
        (parts : List (List ℕ)) → ShowsRow shown.now columns row → place < length columns
        → front.now ≡ part_front (nth_column columns place).header
        → HasParts before out.old is_first parts → HasParts before out.new first
        (parts ++ option_to_list (part_of row (nth_column columns place)))) }
{
    match shown.cell(place) {
        Some(cell) => append_behind(out, is_first, front, cell),
        None => Ok(is_first),
    }
}
