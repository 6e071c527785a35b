ghost use Rattle.std.specs.Prelude.{◌≡◌, ℕ, ◌<◌, List, [], ◌∷◌, ◌++◌, length, None, Some};
ghost use Rattle.std.specs.Prelude.{option_to_list, IfOk, OnOk};
ghost use Rattle.cal_value.specs.Flat.{flat};
ghost use Rattle.cal_value.specs.declared.record.Rec.{Rec};
ghost use Rattle.cal_rowset.specs.Answers.{AreWithin, rows_of};
ghost use Rattle.cal_rowset.specs.Cells.{values};
ghost use Rattle.cal_rowset.specs.Filling.{Holds, Shows, names, nth_name};
ghost use Rattle.cal_rowset.specs.Hierarchy.{hierarchy as hierarchy_of};
ghost use Rattle.cal_tabfmt.specs.Expand.{expand, expand_line, expand_lines, own_column, part_of};
ghost use Rattle.cal_tabfmt.specs.Parts.{HasParts};

use crate::column_lines::column_lines;
use crate::part::append_part;
use crate::snapshot_lines::snapshot_lines;
use cal_rowset::{Answer, Cell, Cells, Rows, is_path};
use cal_value::{OutOfMemory, Rec, Text};
use std::alloc::Global;

/// The plain lines of an answer. It takes time in the entries of the rows and the parts of the
/// lines; the answer's columns count only where it has a list of its own.
pub fn expand_text<A: Answer>(alloc: Global, answer: &A) -> Result<Text, OutOfMemory>
    ensures { IfOk result (λ text. text ≡ expand (A.answer answer.now)) }
{
    if answer.shows_all() {
        all_lines(alloc, answer.rows())
    } else {
        column_lines(alloc, answer.columns(), answer)
    }
}

/// The lines of rows by their own names, wherever they are kept.
fn all_lines(alloc: Global, rows: Rows<'_>) -> Result<Text, OutOfMemory>
    requires { AreWithin rows }
    ensures { IfOk result (λ text. text ≡ expand_lines None (rows_of rows.entry)) }
{
    match rows {
        Rows::Owned(rows) => own_lines(alloc, rows),
        Rows::Numbered(context, rows, order) => snapshot_lines(alloc, context, rows, order),
    }
}

/// The lines of rows by their own names.
fn own_lines(alloc: Global, rows: &[Rec]) -> Result<Text, OutOfMemory>
    ensures { IfOk result (λ text. text ≡ expand_lines None rows.now) }
{
    let mut out = Text::new(alloc);
    let mut cells = Cells::new(alloc);
    let mut hierarchy = Cell::new(alloc);
    for row in rows {
        cells.fill_all(row)?;
        hierarchy.show_hierarchy(row)?;
        append_own_line(&mut out, &cells, &hierarchy)?;
    }
    Ok(out)
}

/// Appends the line of a row, whose entries the cells hold.
fn append_own_line(out: &mut Text, cells: &Cells, hierarchy: &Cell) -> Result<(), OutOfMemory>
    ensures { OnOk result ((row : Rec) → Holds cells.now (flat row)
        → Shows hierarchy.now (values (hierarchy_of row))
        → out.new ≡ out.old ++ (expand_line None row ++ 10 ∷ [])) }
{
    let mut is_first = true;
    for place in cells.used() {
        is_first = append_own_part(out, is_first, cells, *place, hierarchy)?;
    }
    out.push_str("\n")
}

/// Appends the part of the name at a place. The name `path` shows the hierarchy.
fn append_own_part(
    out: &mut Text,
    is_first: bool,
    cells: &Cells,
    place: usize,
    hierarchy: &Cell,
) -> Result<bool, OutOfMemory>
    ensures { IfOk result (λ first. (row : Rec) (before : List ℕ) (parts : List (List ℕ))
        → Holds cells.now (flat row) → Shows hierarchy.now (values (hierarchy_of row))
        → place < length (names cells.now)
        → HasParts before out.old is_first parts → HasParts before out.new first
        (parts ++ option_to_list (part_of row (own_column (nth_name (names cells.now) place))))) }
{
    let Some(name) = cells.names().get(place) else {
        return Ok(is_first);
    };
    if is_path(name) {
        return append_part(out, is_first, name, hierarchy);
    }
    match cells.cells().get(place) {
        Some(cell) => append_part(out, is_first, name, cell),
        None => Ok(is_first),
    }
}
