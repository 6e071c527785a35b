ghost use Rattle.std.specs.Prelude.{◌≡◌, ◌+◌, ◌<◌, length};
ghost use Rattle.cal_once.specs.Views.{joined, new_seat, split_off, Learns};
ghost use Rattle.cal_once.specs.Seats.{IsSeatOf, plan_of, view};
ghost use Rattle.cal_once.specs.Sound.{IsSound};

use crate::rule::{Meet, Part};
use crate::{RowSeat, Rows};
use cal_words::RecSort;

impl<S: RecSort> Rows<S> {
    /// A new seat, with the next number and arena. It knows what the first seat knows, and has
    /// published nothing. What both know is sound.
    pub fn split(&self, seat: &mut RowSeat<S>) -> RowSeat<S>
        requires seat { IsSeatOf self.now seat.old }
        requires first { (view seat.old).number ≡ 0 }
        requires some_left { length (view seat.old).others + 1 < (plan_of self.now).shape.arenas }
        ensures seats { IsSeatOf self.now seat.new × IsSeatOf self.now result }
        ensures first { Learns (split_off (view seat.old)) (view seat.new) }
        ensures new { Learns (new_seat (view seat.old)) (view result) }
        ensures sound { IsSound S.RecSort (plan_of self.now) (view seat.new)
            × IsSound S.RecSort (plan_of self.now) (view result) }
    {
        let number = seat.made;
        let _arenas = self.plan.shape.arenas;
        let mut new = self.table.shared.split_seat::<Part>(&mut seat.seat);
        seat.made = number + 1;
        self.settle(&mut seat.seat);
        self.settle(&mut new);
        RowSeat {
            seat: new,
            number,
            used: 0,
            made: 1,
        }
    }

    /// The first seat takes in what another one knew and published. That one says nothing more.
    /// What the first one then knows is sound, so that places which both had from `put` are one
    /// exactly where their records are equal.
    pub fn join(&self, seat: &mut RowSeat<S>, other: RowSeat<S>)
        requires seats { IsSeatOf self.now seat.old × IsSeatOf self.now other }
        requires first { (view seat.old).number ≡ 0 }
        ensures seat { IsSeatOf self.now seat.new }
        ensures joined { Learns (joined (view seat.old) (view other)) (view seat.new) }
        ensures sound { IsSound S.RecSort (plan_of self.now) (view seat.new) }
    {
        self.table
            .shared
            .join_seat::<Meet>(&mut seat.seat, other.into_seat());
        self.settle(&mut seat.seat);
    }
}
