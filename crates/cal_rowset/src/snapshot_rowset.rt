ghost use Rattle.std.specs.List.{All};
ghost use Rattle.cal_rowset.specs.NumberedRows.{IsWithin};

use crate::{Answer, Column, Rows, ShownRow, SnapshotList};
use cal_context::Context;
use cal_value::{OutOfMemory, Seq};
use std::alloc::Global;

/// The answer of a query, its rows as snapshots of a context. A row takes its own size then, and
/// not that of its entries. They lie as they were made, and are shown in the order of their places.
#[derive(Drop)]
pub struct SnapshotRowset {
    context: Context,
    rows: SnapshotList,
    order: Vec<usize>,
    columns: Seq<Column>,
    all: bool,
    ghost within: { All (IsWithin context) rows },
}

impl SnapshotRowset {
    ghost use Rattle.std.specs.Prelude.{◌≡◌};
    ghost use Rattle.cal_rowset.specs.NumberedRows.{in_order};
    ghost use Rattle.cal_rowset.specs.Numbers.{answer_over, rowset_of};

    /// The answer with these rows, in the order of their places, and these columns; `all` says that
    /// the query had no list of columns.
    pub fn new(
        context: Context,
        rows: SnapshotList,
        order: Vec<usize>,
        columns: Seq<Column>,
        all: bool,
    ) -> Self
        requires { All (IsWithin context) rows }
        ensures { rowset_of result ≡ answer_over context (in_order rows order.items) columns all }
    {
        SnapshotRowset {
            context,
            rows,
            order,
            columns,
            all,
        }
    }
}

impl Answer for SnapshotRowset {
    ghost use Rattle.cal_rowset.specs.Numbers.{IsReadyFor, rowset_of};

    ghost answer = { rowset_of };

    ghost is_ready = { IsReadyFor };

    fn columns(&self) -> &[Column] {
        self.columns.as_slice()
    }

    fn shows_all(&self) -> bool {
        self.all
    }

    fn row_count(&self) -> usize {
        self.order.len()
    }

    fn rows(&self) -> Rows<'_> {
        Rows::Numbered(&self.context, &self.rows, &self.order)
    }

    fn cells(&self, alloc: Global, columns: &[Column]) -> Result<ShownRow, OutOfMemory> {
        ShownRow::for_context(alloc, columns, &self.context)
    }

    fn show(&self, place: usize, shown: &mut ShownRow) -> Result<(), OutOfMemory> {
        let row = self.order[place];
        shown.fill_numbered(&self.context, self.rows.nodes(row), self.rows.imms(row))
    }
}
