ghost use Rattle.std.specs.Prelude.{◌≡◌, ◌++◌, [], List, length, map, IfOk, OnOk};
ghost use Rattle.std.specs.List.{flat_map};
ghost use Rattle.cal_value.specs.declared.record.Rec.{Rec};
ghost use Rattle.cal_rowset.specs.declared.rowset.Column as columns;
ghost use Rattle.cal_tabfmt.specs.Grid.{grid_line};
ghost use Rattle.cal_tabfmt.specs.Kept.{Keeps};
ghost use Rattle.cal_tabfmt.specs.Table.{header_line, row_line, table};
ghost use Rattle.cal_tabfmt.specs.Tables.{held};

use crate::grid::append_line;
use crate::held::{Held, hold_row, nothing_held, shapes_of};
use crate::kept::KeptTexts;
use crate::shape::Shape;
use crate::table_lines::{append_kept, push_headers};
use cal_rowset::{Answer, Column};
use cal_value::{OutOfMemory, Seq, Text};
use std::alloc::Global;

/// The table of an answer. It goes over the rows once, to learn how wide the columns are and what
/// they hold, and keeps the texts of their cells, from which it then writes the lines. It takes time
/// in the entries of the rows and in its own text, and memory in that and in the kept texts.
pub fn table_text<A: Answer>(alloc: Global, answer: &A) -> Result<Text, OutOfMemory>
    ensures { IfOk result (λ text. text ≡ table (A.answer answer.now)) }
{
    let columns = answer.columns();
    if columns.is_empty() {
        return Ok(Text::new(alloc));
    }
    let mut texts = KeptTexts::new(alloc);
    let all = all_held(alloc, columns, answer, &mut texts)?;
    let shapes = shapes_of(alloc, &all)?;
    let count = answer.row_count();
    let mut out = text_with_room(alloc, room(&shapes, count));
    append_headers(alloc, &mut out, &shapes, columns)?;
    append_rows(&mut out, &shapes, count, &texts)?;
    Ok(out)
}

/// What the columns hold in an answer's rows, whose texts are kept.
fn all_held<A: Answer>(
    alloc: Global,
    columns: &[Column],
    answer: &A,
    texts: &mut KeptTexts,
) -> Result<Vec<Held>, OutOfMemory>
    ensures held { IfOk result (λ all. all.items
        ≡ map (held (A.answer answer.now).rows.rows) columns.now) }
    ensures texts { OnOk result (Keeps texts.old []
        → Keeps texts.new (flat_map (row_line columns.now) (A.answer answer.now).rows.rows)) }
{
    let mut shown = answer.cells(alloc, columns)?;
    let mut all = nothing_held(alloc, columns)?;
    for place in 0..answer.row_count() {
        answer.show(place, &mut shown)?;
        hold_row(alloc, &mut all, texts, &shown)?;
    }
    Ok(all)
}

/// Appends the line of headers.
fn append_headers(
    alloc: Global,
    out: &mut Text,
    shapes: &[Shape],
    columns: &[Column],
) -> Result<(), OutOfMemory>
    ensures { OnOk result (out.new ≡ out.old ++ grid_line shapes.now (header_line columns.now)) }
{
    let mut headers = Seq::new(alloc);
    push_headers(alloc, &mut headers, columns)?;
    append_line(out, shapes, headers.as_slice())
}

/// Appends the lines of so many rows, whose texts are kept.
fn append_rows(
    out: &mut Text,
    shapes: &[Shape],
    count: usize,
    texts: &KeptTexts,
) -> Result<(), OutOfMemory>
    ensures { OnOk result ((columns : List columns.Column) (rows : List Rec)
        → length columns ≡ length shapes.now → length rows ≡ count
        → Keeps texts.now (flat_map (row_line columns) rows) → out.new ≡ out.old
        ++ flat_map (grid_line shapes.now) (map (row_line columns) rows)) }
{
    let mut mark = texts.first();
    for _row in 0..count {
        mark = append_kept(out, shapes, shapes.len(), texts, mark)?;
    }
    Ok(())
}

/// How many bytes the lines of so many rows and of the headers take at most, if all is ASCII.
fn room(shapes: &[Shape], count: usize) -> usize {
    let mut line = 0usize;
    for shape in shapes {
        line = line.saturating_add(shape.width).saturating_add(1);
    }
    line.saturating_mul(count.saturating_add(1))
}

/// An empty text, with room for so many bytes if there is so much memory.
fn text_with_room(alloc: Global, room: usize) -> Text
    ensures { result ≡ [] }
{
    match String::with_capacity(alloc, room) {
        Ok(string) => Text::from_string(string),
        Err(_) => Text::new(alloc),
    }
}
