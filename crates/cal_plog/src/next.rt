ghost use Rattle.std.specs.Prelude.{◌≤◌};
ghost use Rattle.cal_once.specs.Seats.{view};
ghost use Rattle.cal_plog.specs.Answers.{Reads};
ghost use Rattle.cal_plog.specs.Seats.{IsLogSeat, plan_of, slots_of};

use crate::{LogSeat, PLog};
use cal_words::{OpRec, read_op};

impl PLog {
    /// The operation at place k of the history, by nine loads; none where the slot is empty at that
    /// moment, which ends the history, or where k is the number of slots. It takes no memory and
    /// never waits.
    pub fn next(&self, seat: &mut LogSeat, k: u64) -> Option<OpRec>
        requires seat { IsLogSeat self.now seat.old }
        requires place { k ≤ slots_of self.now }
        ensures seat { IsLogSeat self.now seat.new }
        ensures answer { Reads (plan_of self.now) (view seat.old) (view seat.new) k result }
    {
        if k == self.slots {
            return None;
        }
        if !self.rows.look(seat, k) {
            return None;
        }
        let mut words = [0; 7];
        self.rows.front(seat, k, &mut words);
        Some(read_op(&words))
    }
}
