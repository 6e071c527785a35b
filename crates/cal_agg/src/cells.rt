//! The cells of a row: one in the row itself, and more in a block of memory.
ghost use Rattle.std.specs.Prelude.{◌≡◌, [], ◌∷◌, ◌++◌, length, replicate, All, IfOk, OnOk};
ghost use Rattle.cal_agg.specs.Rows.{CellHasRoom, cell_over, merged_cells};

use crate::Cell;
use cal_value::{OutOfMemory, TryCopy};
use std::alloc::Global;
use std::marker::Model;
use std::slice;

/// Cells, as contracts see a list. A single one takes no memory of its own: nearly all rows have
/// one, and a table has many rows.
#[derive(Debug, Drop)]
pub struct Cells {
    held: Held,
}

#[derive(Debug, Drop)]
enum Held {
    None,
    One(Cell),
    Many(Vec<Cell>),
}

impl Model for Cells {
    ghost use Rattle.std.specs.Prelude.{List};
    ghost use Rattle.cal_agg.specs.declared.cell.Cell.{Cell};
    ghost use Rattle.cal_agg.specs.CellLists.{cells_in};

    ghost Value = { List Cell };

    ghost view = { λ c. cells_in c.held };
}

impl Cells {
    /// No cell. It takes no memory.
    pub fn new() -> Cells
        ensures { result ≡ [] }
    {
        Cells { held: Held::None }
    }

    /// So many cells, to which nothing was added. It takes memory where they are more than one.
    pub fn start(alloc: Global, count: usize) -> Result<Cells, OutOfMemory>
        ensures { IfOk result (λ cells. cells ≡ replicate count (cell_over [])) }
    {
        if count == 1 {
            return Ok(Cells {
                held: Held::One(Cell::start()),
            });
        }
        Ok(Cells {
            held: Held::Many(vec![in alloc; Cell::start(); count]?),
        })
    }

    /// The cells.
    pub fn as_slice(&self) -> &[Cell]
        ensures { result.now ≡ self.now }
    {
        match &self.held {
            Held::None => &[],
            Held::One(cell) => slice::from_ref(cell),
            Held::Many(cells) => cells.as_slice(),
        }
    }

    /// Takes all cells away, and keeps the memory.
    pub fn clear(&mut self)
        ensures { self.new ≡ [] }
    {
        match &mut self.held {
            Held::None => {}
            Held::One(_) => self.held = Held::None,
            Held::Many(cells) => cells.clear(),
        }
    }

    /// Adds a cell at the end. It takes memory where it isn't the first, and the list grows.
    pub fn push(&mut self, alloc: Global, cell: Cell) -> Result<(), OutOfMemory>
        ensures { OnOk result (self.new ≡ self.old ++ cell ∷ []) }
    {
        match &mut self.held {
            Held::None => self.held = Held::One(cell),
            Held::One(first) => {
                let both = two(alloc, *first, cell)?;
                self.held = Held::Many(both);
            }
            Held::Many(cells) => cells.push(cell)?,
        }
        Ok(())
    }

    /// Adds what was added to as many others, cell by cell.
    pub fn merge(&mut self, others: &Cells)
        requires alike { length others.now ≡ length self.old }
        requires room { All CellHasRoom (merged_cells self.old others.now) }
        ensures { self.new ≡ merged_cells self.old others.now }
    {
        match &mut self.held {
            Held::None => {}
            Held::One(cell) => merge_cells(slice::from_mut(cell), others.as_slice()),
            Held::Many(cells) => merge_cells(cells.as_mut_slice(), others.as_slice()),
        }
    }
}

fn two(alloc: Global, first: Cell, second: Cell) -> Result<Vec<Cell>, OutOfMemory>
    ensures { IfOk result (λ both. both.items ≡ first ∷ second ∷ []) }
{
    let mut both = Vec::with_capacity(alloc, 2)?;
    both.push(first)?;
    both.push(second)?;
    Ok(both)
}

/// Merges cells place by place.
fn merge_cells(cells: &mut [Cell], others: &[Cell])
    requires alike { length others.now ≡ length cells.old }
    requires room { All CellHasRoom (merged_cells cells.old others.now) }
    ensures { cells.new ≡ merged_cells cells.old others.now }
{
    for place in 0..others.len() {
        cells[place].merge(&others[place]);
    }
}

impl TryCopy for Cells {
    fn copy(&self, alloc: Global) -> Result<Cells, OutOfMemory> {
        let held = match &self.held {
            Held::None => Held::None,
            Held::One(cell) => Held::One(*cell),
            Held::Many(cells) => Held::Many(Vec::from_slice(alloc, cells.as_slice())?),
        };
        Ok(Cells { held })
    }
}
