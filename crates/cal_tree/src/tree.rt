ghost use Rattle.std.specs.Prelude.{◌≡◌};
ghost use Rattle.cal_once.specs.Seats.{plan_of};

use cal_once::{RowSeat, Rows, Shape};
use cal_words::NodeSort;

/// A context tree that seats grow together.
#[derive(Drop)]
pub struct Tree {
    pub(crate) rows: Rows<NodeSort>,
    pub(crate) shape: Shape,
    ghost laid_out: { shape ≡ (plan_of rows).shape },
}

/// A seat at a tree. Contracts see what it knows, as the `View` of a seat at write-once rows.
pub type TreeSeat = RowSeat<NodeSort>;
