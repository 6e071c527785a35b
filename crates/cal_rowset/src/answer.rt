ghost use Rattle.std.specs.Prelude.{◌≡◌, ◌<◌, List, length, IfOk, OnOk, ⊤};
ghost use Rattle.cal_rowset.specs.Answers.{AreWithin, nth_row, rows_of};
ghost use Rattle.cal_rowset.specs.Showing.{IsFor, ShowsRow};
ghost use Rattle.cal_rowset.specs.declared.rowset.Column as columns;

use crate::{Column, Rows, Rowset, ShownRow};
use cal_value::OutOfMemory;
use std::alloc::Global;

/// The answer of a query, wherever its rows are kept. Layouts print any.
pub trait Answer {
    ghost use Rattle.cal_rowset.specs.declared.rowset.Rowset.{Rowset};
    ghost use Rattle.cal_rowset.specs.declared.shown_row.ShownRow.{ShownRow};

    // the answer, its rows with entries of their own
    ghost answer: { Self → Rowset };

    // whether cells were made for its rows
    ghost is_ready: { Self → ShownRow → Type 0 };

    /// The columns in which its rows are shown.
    fn columns(&self) -> &[Column]
        ensures { result.now ≡ (answer self.now).columns };

    /// Whether the query had no list of columns, so that plain lines show each row's own names.
    fn shows_all(&self) -> bool
        ensures { result ≡ (answer self.now).all };

    fn row_count(&self) -> usize
        ensures { result ≡ length (answer self.now).rows.rows };

    /// Its rows, as they are kept.
    fn rows(&self) -> Rows<'_>
        ensures rows { rows_of result ≡ (answer self.now).rows.rows }
        ensures within { AreWithin result };

    /// The cells of these columns, for its rows.
    fn cells(&self, alloc: Global, columns: &[Column]) -> Result<ShownRow, OutOfMemory>
        ensures for_columns { IfOk result (λ shown. IsFor shown columns.now) }
        ensures ready { IfOk result (λ shown. is_ready self.now shown) };

    /// Shows the row at a place, in place of the one before.
    fn show(&self, place: usize, shown: &mut ShownRow) -> Result<(), OutOfMemory>
        requires place { place < length (answer self.now).rows.rows }
        requires ready { is_ready self.now shown.old }
        ensures ready { OnOk result (is_ready self.now shown.new) }
        ensures shows { OnOk result ((columns : List columns.Column) → IsFor shown.old columns
            → ShowsRow shown.new columns (nth_row (answer self.now).rows.rows place)) };
}

impl Answer for Rowset {
    ghost answer = { λ rowset. rowset };

    ghost is_ready = { λ _ _. ⊤ };

    fn columns(&self) -> &[Column] {
        self.columns.as_slice()
    }

    fn shows_all(&self) -> bool {
        self.all
    }

    fn row_count(&self) -> usize {
        self.rows.rows.len()
    }

    fn rows(&self) -> Rows<'_> {
        Rows::Owned(self.rows.rows.as_slice())
    }

    fn cells(&self, alloc: Global, columns: &[Column]) -> Result<ShownRow, OutOfMemory> {
        ShownRow::new(alloc, columns)
    }

    fn show(&self, place: usize, shown: &mut ShownRow) -> Result<(), OutOfMemory> {
        shown.fill(&self.rows.rows.as_slice()[place])
    }
}
