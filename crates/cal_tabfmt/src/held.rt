ghost use Rattle.std.specs.Prelude.{◌≡◌, ℕ, ◌+◌, ◌<◌, ◌∷◌, ◌++◌, ◌||◌, [], List, length, map, not};
ghost use Rattle.std.specs.Prelude.{max, IfOk, OnOk};
ghost use Rattle.cal_value.specs.declared.record.Rec.{Rec};
ghost use Rattle.cal_rowset.specs.Filling.{is_nothing};
ghost use Rattle.cal_rowset.specs.Showing.{ShowsRow, nth_column};
ghost use Rattle.cal_rowset.specs.declared.rowset.Column as columns;
ghost use Rattle.cal_tabfmt.specs.Grid.{on_line as on_line_of, width as width_of};
ghost use Rattle.cal_tabfmt.specs.Kept.{Keeps};
ghost use Rattle.cal_tabfmt.specs.Table.{cell_text, is_words, row_line};
ghost use Rattle.cal_tabfmt.specs.Tables.{held, held_before, shape_of};

use crate::kept::KeptTexts;
use crate::shape::{Shape, wider, width};
use crate::shown_text::{is_one_line, on_line, shown_width};
use cal_rowset::{Column, Content, ShownRow};
use cal_value::{OutOfMemory, Text};
use std::alloc::Global;

/// What the cells of a column hold: whether some cell is there, and whether some holds words; and
/// the width of the widest of its texts, that of its header among them.
#[derive(Clone, Copy, Debug)]
pub(crate) struct Held {
    pub(crate) width: usize,
    pub(crate) some: bool,
    pub(crate) words: bool,
}

impl Held {
    /// The same with one cell more, which is so wide on its line.
    fn with(self, width: usize, content: Content) -> Held
        ensures width { result.width ≡ max self.width width }
        ensures some { result.some ≡ (self.some || not (is_nothing content)) }
        ensures words { result.words ≡ (self.words || is_words content) }
    {
        Held {
            width: wider(self.width, width),
            some: self.some || !matches!(content, Content::Nothing),
            words: self.words || matches!(content, Content::Words),
        }
    }

    /// The column is right-aligned where it has cells, and all of them hold single numbers.
    fn shape(self) -> Shape
        ensures { result ≡ shape_of self }
    {
        Shape {
            width: self.width,
            right: self.some && !self.words,
        }
    }
}

/// What the columns hold without a row.
pub(crate) fn nothing_held(alloc: Global, columns: &[Column]) -> Result<Vec<Held>, OutOfMemory>
    ensures { IfOk result (λ none. none.items ≡ map (held []) columns.now) }
{
    let mut none = Vec::new(alloc);
    for column in columns {
        none.push(Held {
            width: shown_width(alloc, &column.header)?,
            some: false,
            words: false,
        })?;
    }
    Ok(none)
}

/// Adds the cells of a row, which is shown in the columns, and keeps their texts.
pub(crate) fn hold_row(
    alloc: Global,
    all: &mut Vec<Held>,
    texts: &mut KeptTexts,
    shown: &ShownRow,
) -> Result<(), OutOfMemory>
    ensures counted { length all.new.items ≡ length all.old.items }
    ensures held { OnOk result ((columns : List columns.Column) (row : Rec) (rows : List Rec)
        → ShowsRow shown.now columns row → all.old.items ≡ map (held rows) columns
        → all.new.items ≡ map (held (rows ++ row ∷ [])) columns) }
    ensures texts { OnOk result ((columns : List columns.Column) (row : Rec)
        (before : List (List ℕ)) → ShowsRow shown.now columns row
        → length all.old.items ≡ length columns → Keeps texts.old before
        → Keeps texts.new (before ++ row_line columns row)) }
{
    for place in 0..all.len() {
        hold_cell(alloc, all, texts, place, shown)?;
    }
    Ok(())
}

/// Adds the cell of one column.
fn hold_cell(
    alloc: Global,
    all: &mut Vec<Held>,
    texts: &mut KeptTexts,
    place: usize,
    shown: &ShownRow,
) -> Result<(), OutOfMemory>
    requires { place < length all.old.items }
    ensures counted { length all.new.items ≡ length all.old.items }
    ensures held { OnOk result ((columns : List columns.Column) (row : Rec) (rows : List Rec)
        → ShowsRow shown.now columns row → place < length columns
        → all.old.items ≡ held_before rows row columns place
        → all.new.items ≡ held_before rows row columns (place + 1)) }
    ensures texts { OnOk result ((columns : List columns.Column) (row : Rec)
        (before : List (List ℕ)) → ShowsRow shown.now columns row → place < length columns
        → Keeps texts.old before
        → Keeps texts.new (before ++ cell_text row (nth_column columns place) ∷ [])) }
{
    match shown.cell(place) {
        Some(cell) => {
            let width = keep_shown(alloc, texts, &cell.text)?;
            all[place] = all[place].with(width, cell.content);
            Ok(())
        }
        None => Ok(()),
    }
}

/// Keeps a text as a line shows it, and answers how wide it is so.
fn keep_shown(alloc: Global, texts: &mut KeptTexts, text: &Text) -> Result<usize, OutOfMemory>
    ensures width { IfOk result (λ width. width ≡ width_of (on_line_of text.now)) }
    ensures texts { OnOk result ((before : List (List ℕ)) → Keeps texts.old before
        → Keeps texts.new (before ++ on_line_of text.now ∷ [])) }
{
    if is_one_line(text.as_str()) {
        texts.push(text.as_str())?;
        return Ok(width(text.as_str()));
    }
    let line = on_line(alloc, text.as_str())?;
    texts.push(line.as_str())?;
    Ok(width(line.as_str()))
}

/// The columns of the table's lines.
pub(crate) fn shapes_of(alloc: Global, all: &[Held]) -> Result<Vec<Shape>, OutOfMemory>
    ensures { IfOk result (λ shapes. shapes.items ≡ map shape_of all.now) }
{
    let mut shapes = Vec::new(alloc);
    for held in all {
        shapes.push(held.shape())?;
    }
    Ok(shapes)
}
