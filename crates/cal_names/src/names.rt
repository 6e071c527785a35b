//! A table of names, and its seats.
ghost use Rattle.std.specs.Prelude.{◌≡◌};
ghost use Rattle.cal_once.specs.Layout.{IsShape};

use crate::NameSort;
use cal_once::{RowSeat, Rows, Shape};

/// A table of names that seats declare.
#[derive(Drop)]
pub struct Names {
    pub(crate) rows: Rows<NameSort>,
    pub(crate) shape: Shape,
    ghost shape_is: { shape ≡ rows.table.shared.key.shape },
    ghost shaped: { IsShape shape },
}

/// A seat at a table of names. Contracts see what it knows, as the `View` of a seat at write-once
/// rows.
pub type NameSeat = RowSeat<NameSort>;
