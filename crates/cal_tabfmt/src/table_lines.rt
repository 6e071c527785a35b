ghost use Rattle.std.specs.Prelude.{◌≡◌, ℕ, ◌+◌, ◌<◌, ◌++◌, List, length, slice_index_or};
ghost use Rattle.std.specs.Prelude.{IfOk, OnOk};
ghost use Rattle.cal_tabfmt.specs.Ends.{HasLine, front_of_line};
ghost use Rattle.cal_tabfmt.specs.Grid.{grid_line, on_line as on_line_of};
ghost use Rattle.cal_tabfmt.specs.Kept.{AreLeft};
ghost use Rattle.cal_tabfmt.specs.Table.{header_line};

use crate::grid::append_column;
use crate::kept::{KeptTexts, Mark};
use crate::shape::Shape;
use crate::shown_text::{is_one_line, on_line};
use cal_rowset::Column;
use cal_value::{OutOfMemory, Seq, Text};
use std::alloc::Global;

/// Adds the texts of the headers to a line. An `Err` may leave a part of them.
pub fn push_headers(
    alloc: Global,
    line: &mut Seq<Text>,
    columns: &[Column],
) -> Result<(), OutOfMemory>
    ensures { OnOk result (line.new ≡ line.old ++ header_line columns.now) }
{
    for column in columns {
        line.push(on_line(alloc, column.header.as_str())?)?;
    }
    Ok(())
}

/// Appends the line of the next texts that are kept, and answers the mark behind them.
pub(crate) fn append_kept(
    out: &mut Text,
    shapes: &[Shape],
    count: usize,
    texts: &KeptTexts,
    from: Mark,
) -> Result<Mark, OutOfMemory>
    ensures { IfOk result (λ mark. (line more : List (List ℕ)) → length line ≡ count
        → AreLeft texts.now from (line ++ more)
        → (out.new ≡ out.old ++ grid_line shapes.now line) × AreLeft texts.now mark more) }
{
    let mut mark = from;
    let mut pending = 0;
    for place in 0..count {
        pending = append_column(out, pending, place, shapes, texts.text(mark))?;
        mark = texts.behind(mark);
    }
    out.push_str("\n")?;
    Ok(mark)
}

/// Appends a text as a line shows it. Most texts have no newline, and none of them is copied.
pub fn append_shown(
    alloc: Global,
    out: &mut Text,
    pending: usize,
    place: usize,
    shapes: &[Shape],
    text: &Text,
) -> Result<usize, OutOfMemory>
    ensures { IfOk result (λ left. (before : List ℕ) (texts : List (List ℕ))
        → place < length texts
        → on_line_of text.now ≡ slice_index_or texts place (on_line_of text.now)
        → HasLine before out.old pending (front_of_line shapes.now texts place)
        → HasLine before out.new left (front_of_line shapes.now texts (place + 1))) }
{
    if is_one_line(text.as_str()) {
        return append_column(out, pending, place, shapes, text.as_str());
    }
    let line = on_line(alloc, text.as_str())?;
    append_column(out, pending, place, shapes, line.as_str())
}
