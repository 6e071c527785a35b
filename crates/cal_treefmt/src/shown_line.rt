ghost use Rattle.std.specs.Prelude.{◌≡◌, ◌<◌, ◌≤◌, List, length, slice_get, IfOk, OnOk};
ghost use Rattle.std.specs.Option.{option_and_then};
ghost use Rattle.cal_value.specs.declared.record.Rec.{Rec};
ghost use Rattle.cal_rowset.specs.Showing.{IsFor, ShowsRow, nth_column};
ghost use Rattle.cal_rowset.specs.declared.rowset.Column as columns;
ghost use Rattle.cal_tabfmt.specs.Grid.{nth_text, on_line};
ghost use Rattle.cal_tabfmt.specs.Table.{cell_text};
ghost use Rattle.cal_treefmt.specs.Lines as lines;
ghost use Rattle.cal_treefmt.specs.Plans.{IsWithin, shown};
ghost use Rattle.cal_treefmt.specs.Shown.{IsForLines, ShowsBeside, ShowsLine};
ghost use Rattle.cal_treefmt.specs.Tree.{line_texts, texts_beside};

use crate::label::write_label;
use crate::lines::Line;
use cal_context::Context;
use cal_rowset::{Answer, Column, ShownRow};
use cal_value::{OutOfMemory, Text};
use std::alloc::Global;

/// A line as it is shown: its label, and the cells beside it. One serves for any number of lines.
#[derive(Drop)]
pub(crate) struct ShownLine {
    pub(crate) label: Text,
    pub(crate) cells: ShownRow,
    // whether it has a row
    pub(crate) has_row: bool,
    pub(crate) empty: Text,
}

impl ShownLine {
    /// A line without a row, for these columns beside a label.
    pub(crate) fn new<A: Answer>(
        alloc: Global,
        columns: &[Column],
        answer: &A,
    ) -> Result<Self, OutOfMemory>
        ensures for_columns { IfOk result (λ line. IsForLines columns.now line) }
        ensures ready { IfOk result (λ line. A.is_ready answer.now line.cells) }
    {
        Ok(ShownLine {
            label: Text::new(alloc),
            cells: answer.cells(alloc, columns)?,
            has_row: false,
            empty: Text::new(alloc),
        })
    }

    /// Shows a line, in place of the one before.
    pub(crate) fn show<A: Answer>(
        &mut self,
        context: &Context,
        answer: &A,
        line: &Line,
    ) -> Result<(), OutOfMemory>
        requires within { IsWithin context.now line.now }
        requires ready { A.is_ready answer.now self.old.cells }
        ensures ready { OnOk result (A.is_ready answer.now self.new.cells) }
        ensures shows { OnOk result ((columns : List columns.Column)
            → IsForLines columns self.old → ShowsLine columns self.new
            (shown context.now (A.answer answer.now).rows.rows line.now)) }
    {
        write_label(&mut self.label, context, line.node)?;
        self.show_row(answer, line.row)
    }

    /// Shows the row at a place, if there is one.
    fn show_row<A: Answer>(&mut self, answer: &A, place: Option<usize>) -> Result<(), OutOfMemory>
        requires { A.is_ready answer.now self.old.cells }
        ensures label { self.new.label ≡ self.old.label }
        ensures empty { self.new.empty ≡ self.old.empty }
        ensures ready { OnOk result (A.is_ready answer.now self.new.cells) }
        ensures shows { OnOk result ((columns : List columns.Column)
            → IsFor self.old.cells columns → ShowsBeside columns self.new
            (option_and_then (slice_get (A.answer answer.now).rows.rows) place)) }
    {
        self.has_row = false;
        let Some(place) = place else {
            return Ok(());
        };
        if place >= answer.row_count() {
            return Ok(());
        }
        answer.show(place, &mut self.cells)?;
        self.has_row = true;
        Ok(())
    }

    /// The text in a column, of which the first is the label's.
    pub(crate) fn text(&self, place: usize) -> &Text
        ensures { (columns : List columns.Column) (line : lines.Line)
            → ShowsLine columns self.now line → place ≤ length columns
            → on_line result.now ≡ nth_text (line_texts columns line) place }
    {
        match place.checked_sub(1) {
            Some(column) => self.cell_text(column),
            None => &self.label,
        }
    }

    /// The text of the cell in a column beside the label.
    fn cell_text(&self, column: usize) -> &Text
        ensures { (columns : List columns.Column) (line : lines.Line)
            → ShowsLine columns self.now line → column < length columns
            → on_line result.now ≡ nth_text (texts_beside columns line.row) column }
    {
        if self.has_row {
            return self.row_text(column);
        }
        &self.empty
    }

    fn row_text(&self, column: usize) -> &Text
        ensures { (columns : List columns.Column) (row : Rec)
            → ShowsRow self.now.cells columns row → column < length columns
            → on_line result.now ≡ cell_text row (nth_column columns column) }
    {
        match self.cells.cell(column) {
            Some(cell) => &cell.text,
            None => &self.empty,
        }
    }
}
