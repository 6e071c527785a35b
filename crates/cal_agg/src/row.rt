ghost use Rattle.std.specs.Prelude.{◌≡◌, length, IfOk};
ghost use Rattle.cal_agg.specs.Rows.{RowHasRoom, empty_row, merged_row};

use crate::{Cells, Count, Kernel};
use cal_value::{OutOfMemory, TryCopy};
use std::alloc::Global;

/// What is kept of a group: how many there are, and a cell for each attribute.
#[derive(Debug, Drop)]
pub struct AggRow {
    pub count: Count,
    pub cells: Cells,
}

impl AggRow {
    /// A row with so many cells, to which nothing was added. It takes memory for the cells.
    pub fn start(alloc: Global, cells: usize) -> Result<AggRow, OutOfMemory>
        ensures { IfOk result (λ row. row ≡ empty_row cells) }
    {
        Ok(AggRow {
            count: Count::start(),
            cells: Cells::start(alloc, cells)?,
        })
    }

    /// Adds what was added to another row with as many cells, cell by cell.
    pub fn merge(&mut self, other: &AggRow)
        requires alike { length other.now.cells ≡ length self.old.cells }
        requires room { RowHasRoom (merged_row self.old other.now) }
        ensures { self.new ≡ merged_row self.old other.now }
    {
        self.count.merge(&other.count);
        self.cells.merge(&other.cells);
    }
}

impl TryCopy for AggRow {
    fn copy(&self, alloc: Global) -> Result<AggRow, OutOfMemory> {
        Ok(AggRow {
            count: self.count,
            cells: self.cells.copy(alloc)?,
        })
    }
}
