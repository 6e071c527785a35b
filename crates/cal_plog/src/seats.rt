ghost use Rattle.std.specs.Prelude.{◌≡◌, ◌+◌, ◌<◌, IfOk, length};
ghost use Rattle.cal_once.specs.Layout.{IsShape};
ghost use Rattle.cal_once.specs.Seats.{view};
ghost use Rattle.cal_once.specs.Views.{Learns, first_seat, joined, new_seat, split_off};
ghost use Rattle.cal_plog.specs.Seats.{IsLogSeat, ops_of, plan_of};

use crate::{LogSeat, PLog};
use cal_once::{Rows, Shape};
use cal_value::{OutOfMemory, Seq};
use cal_words::{OpRec, OpSort};
use std::alloc::Global;

impl PLog {
    /// An empty history, to which these operations may be appended, and its first seat. All its
    /// memory is taken here.
    pub fn new(alloc: Global, shape: Shape, ops: Seq<OpRec>) -> Result<(PLog, LogSeat), OutOfMemory>
        requires { IsShape shape }
        ensures shape { IfOk result (λ r. (plan_of r.0).shape ≡ shape) }
        ensures ops { IfOk result (λ r. ops_of r.0 ≡ ops) }
        ensures seat { IfOk result (λ r. IsLogSeat r.0 r.1
            × (view r.1 ≡ first_seat (plan_of r.0))) }
    {
        let slots = shape.slots;
        let (rows, seat) = Rows::new(alloc, shape, OpSort { ops })?;
        Ok((PLog { rows, slots }, seat))
    }

    /// A new seat, with the next number and arena. It knows what the first seat knows, and has
    /// published nothing. The seat of number `thread + 1` appends that thread's operations.
    pub fn split(&self, seat: &mut LogSeat) -> LogSeat
        requires seat { IsLogSeat self.now seat.old }
        requires first { (view seat.old).number ≡ 0 }
        requires some_left { length (view seat.old).others + 1 < (plan_of self.now).shape.arenas }
        ensures seats { IsLogSeat self.now seat.new × IsLogSeat self.now result }
        ensures first { Learns (split_off (view seat.old)) (view seat.new) }
        ensures new { Learns (new_seat (view seat.old)) (view result) }
    {
        let _slots = self.slots;
        self.rows.split(seat)
    }

    /// The first seat takes in what another one knew and published: it has seen what either saw.
    pub fn join(&self, seat: &mut LogSeat, other: LogSeat)
        requires seats { IsLogSeat self.now seat.old × IsLogSeat self.now other }
        requires first { (view seat.old).number ≡ 0 }
        ensures seat { IsLogSeat self.now seat.new }
        ensures joined { Learns (joined (view seat.old) (view other)) (view seat.new) }
    {
        let _slots = self.slots;
        self.rows.join(seat, other);
    }
}
