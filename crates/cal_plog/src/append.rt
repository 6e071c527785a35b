ghost use Rattle.std.specs.Prelude.{◌≡◌, ◌+◌, ◌≤◌};
ghost use Rattle.std.specs.List.{Contains};
ghost use Rattle.cal_once.specs.Seats.{view};
ghost use Rattle.cal_once.specs.Views.{IsLater};
ghost use Rattle.cal_plog.specs.Answers.{Appends};
ghost use Rattle.cal_plog.specs.History.{KnowsBelow, OwnBefore};
ghost use Rattle.cal_plog.specs.Seats.{IsLogSeat, ops_of, plan_of, slots_of};

use crate::{LogSeat, PLog};
use cal_once::Put;
use cal_words::{OpRec, know_op};

/// Why an operation wasn't appended. Nothing was published.
#[derive(Clone, Copy, Debug, PartialEq, Eq)]
pub enum LogFull {
    /// Each slot holds another operation.
    RowsFull,
    /// An empty slot was found, and the seat's arena has no room: it has so many words in use, and
    /// the operation needs so many.
    ArenaFull { used: u64, need: u64 },
}

impl PLog {
    /// Appends an operation of the seat's thread, of a later line than those before, at the end of
    /// the history. The walk begins at `from`, below which the seat knows all places. It takes no
    /// memory and never waits, and takes time in the places that it passes.
    pub fn append(&self, seat: &mut LogSeat, op: OpRec, from: u64) -> Result<u64, LogFull>
        requires seat { IsLogSeat self.now seat.old }
        requires among { Contains (ops_of self.now) op }
        requires thread { (view seat.old).number ≡ op.thread + 1 }
        requires line { OwnBefore (slots_of self.now) (view seat.old) op.line }
        requires from { from ≤ slots_of self.now }
        requires known { KnowsBelow (slots_of self.now) (view seat.old) from }
        ensures seat { IsLogSeat self.now seat.new }
        ensures later { IsLater (view seat.old) (view seat.new) }
        ensures answer { Appends (plan_of self.now) op (view seat.old) (view seat.new) result }
    {
        let _slots = self.slots;
        know_op(&op);
        match self.rows.put(seat, &op, from) {
            Put::Placed {
                place,
                fresh: _fresh,
            } => Ok(place),
            Put::RowsFull => Err(LogFull::RowsFull),
            Put::ArenaFull { used, need } => Err(LogFull::ArenaFull { used, need }),
        }
    }
}
