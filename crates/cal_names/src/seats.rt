//! The first seat of a table of names, and how others come from it and go back.
ghost use Rattle.std.specs.Prelude.{◌≡◌, ◌+◌, ◌<◌, IfOk, length};
ghost use Rattle.cal_once.specs.Layout.{IsShape};
ghost use Rattle.cal_once.specs.Seats.{view};
ghost use Rattle.cal_once.specs.Views.{Learns, first_seat, joined, new_seat, split_off};
ghost use Rattle.cal_names.specs.Kept.{IsNameSeat, plan_of};

use crate::{NameSeat, NameSort, Names};
use cal_once::{Rows, Shape};
use cal_value::OutOfMemory;
use std::alloc::Global;

impl Names {
    /// A table without names, and its first seat. All its memory is taken here: a word for each
    /// slot and for each word of the arenas.
    pub fn new(alloc: Global, shape: Shape) -> Result<(Names, NameSeat), OutOfMemory>
        requires { IsShape shape }
        ensures shape { IfOk result (λ r. (plan_of r.0).shape ≡ shape) }
        ensures seat { IfOk result (λ r. IsNameSeat r.0 r.1
            × (view r.1 ≡ first_seat (plan_of r.0))) }
    {
        let (rows, seat) = Rows::new(alloc, shape, NameSort)?;
        Ok((Names { rows, shape }, seat))
    }

    /// A new seat, with the next number and arena. It knows what the first seat knows, and has
    /// published nothing.
    pub fn split(&self, seat: &mut NameSeat) -> NameSeat
        requires seat { IsNameSeat self.now seat.old }
        requires first { (view seat.old).number ≡ 0 }
        requires some_left { length (view seat.old).others + 1 < (plan_of self.now).shape.arenas }
        ensures seats { IsNameSeat self.now seat.new × IsNameSeat self.now result }
        ensures first { Learns (split_off (view seat.old)) (view seat.new) }
        ensures new { Learns (new_seat (view seat.old)) (view result) }
    {
        let _slots = self.shape.slots;
        self.rows.split(seat)
    }

    /// The first seat takes in what another one knew and published: it knows the kept declarations
    /// of both.
    pub fn join(&self, seat: &mut NameSeat, other: NameSeat)
        requires seats { IsNameSeat self.now seat.old × IsNameSeat self.now other }
        requires first { (view seat.old).number ≡ 0 }
        ensures seat { IsNameSeat self.now seat.new }
        ensures joined { Learns (joined (view seat.old) (view other)) (view seat.new) }
    {
        let _slots = self.shape.slots;
        self.rows.join(seat, other);
    }
}
