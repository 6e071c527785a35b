//! What is kept of one attribute's numbers.
ghost use Rattle.std.specs.Prelude.{◌≡◌, [], ◌∷◌, IfOk};
ghost use Rattle.cal_agg.specs.Numbers.{IsSmall};
ghost use Rattle.cal_agg.specs.Rows.{CellHasRoom, cell_over, merged_cell};

use crate::figures::{Figures, greatest, joined, least, total};
use crate::{Greatest, Least, Num, Sum};
use cal_value::{OutOfMemory, TryCopy};
use std::alloc::Global;
use std::marker::Model;

/// What is kept of one attribute's numbers: their sum, and their ends.
#[derive(Clone, Copy, Debug)]
pub struct Cell {
    wholes: Option<Figures>,
    fixed: Option<Figures>,
}

impl Model for Cell {
    ghost use Rattle.cal_agg.specs.Parts.{CellValue};

    ghost Value = { CellValue };

    ghost use Rattle.cal_agg.specs.CellFields.{AreSmall, cell_value, fields_of};
    ghost use Rattle.cal_agg.specs.CellFields.{fields_of-cell_value};

    ghost view = { cell_value };

    ghost invariant = { AreSmall };

    ghost inverse = { fields_of };

    ghost inverse_ok = { λ a h. fields_of-cell_value a };
}

impl Cell {
    /// The cell to which nothing was added.
    pub fn start() -> Cell
        ensures { result ≡ cell_over [] }
    {
        Cell {
            wholes: None,
            fixed: None,
        }
    }

    /// The cell to which one number was added.
    fn of(n: Num) -> Cell
        requires { IsSmall n }
        ensures { result ≡ cell_over (n ∷ []) }
    {
        match n {
            Num::Whole(whole) => Cell {
                wholes: Some(Figures::of(whole)),
                fixed: None,
            },
            Num::Fixed(fixed) => Cell {
                wholes: None,
                fixed: Some(Figures::of(fixed)),
            },
        }
    }

    /// Adds a number to the sum and to the ends.
    pub fn add(&mut self, n: Num)
        requires small { IsSmall n }
        requires room { CellHasRoom (merged_cell self.old (cell_over (n ∷ []))) }
        ensures { self.new ≡ merged_cell self.old (cell_over (n ∷ [])) }
    {
        self.merge(&Cell::of(n));
    }

    /// Adds what was added to another cell.
    pub fn merge(&mut self, other: &Cell)
        requires { CellHasRoom (merged_cell self.old other.now) }
        ensures { self.new ≡ merged_cell self.old other.now }
    {
        self.wholes = joined(self.wholes, other.wholes);
        self.fixed = joined(self.fixed, other.fixed);
    }

    /// The sum of what was added.
    pub fn sum(&self) -> Sum
        ensures { result ≡ self.now.sum }
    {
        Sum::of_parts(total(self.wholes), total(self.fixed))
    }

    /// The least of what was added.
    pub fn least(&self) -> Least
        ensures { result ≡ self.now.least }
    {
        Least::of_parts(least(self.wholes), least(self.fixed))
    }

    /// The greatest of what was added.
    pub fn greatest(&self) -> Greatest
        ensures { result ≡ self.now.greatest }
    {
        Greatest::of_parts(greatest(self.wholes), greatest(self.fixed))
    }
}

impl TryCopy for Cell {
    fn copy(&self, _alloc: Global) -> Result<Cell, OutOfMemory> {
        Ok(*self)
    }
}
