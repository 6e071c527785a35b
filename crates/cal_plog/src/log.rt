ghost use Rattle.std.specs.Prelude.{◌≡◌};

use cal_once::{RowSeat, Rows};
use cal_words::OpSort;

/// A history of operations that seats append to.
#[derive(Drop)]
pub struct PLog {
    pub(crate) rows: Rows<OpSort>,
    pub(crate) slots: u64,
    ghost slots_is: { slots ≡ rows.table.shared.key.shape.slots },
}

/// A seat at a history. Contracts see what it knows, as the `View` of a seat at write-once rows.
pub type LogSeat = RowSeat<OpSort>;
