ghost use Rattle.std.specs.Prelude.{◌<◌};
ghost use Rattle.cal_once.specs.Puts.{Sees};
ghost use Rattle.cal_once.specs.Seats.{IsBelowSize, IsKnown, IsSeatOf, plan_of, view};
ghost use Rattle.cal_once.specs.Sound.{IsSound};
ghost use Rattle.cal_once.specs.Views.{IsSizeOf, IsWordOf, Learns};

use crate::{RowSeat, Rows};
use cal_words::RecSort;

impl<S: RecSort> Rows<S> {
    /// Loads the slot of a place: whether it is filled. An empty look is noted.
    pub fn look(&self, seat: &mut RowSeat<S>, place: u64) -> bool
        requires seat { IsSeatOf self.now seat.old }
        requires place { place < (plan_of self.now).shape.slots }
        ensures seat { IsSeatOf self.now seat.new }
        ensures sees { Sees (plan_of self.now) place (view seat.old) (view seat.new) result }
        ensures sound { IsSound S.RecSort (plan_of self.now) (view seat.new) }
    {
        self.load::<true>(&mut seat.seat, place) != 0
    }

    /// The number of words of a known place's record.
    pub fn size(&self, seat: &mut RowSeat<S>, place: u64) -> u64
        requires seat { IsSeatOf self.now seat.old }
        requires known { IsKnown self.now seat.old place }
        ensures seat { IsSeatOf self.now seat.new }
        ensures learns { Learns (view seat.old) (view seat.new) }
        ensures size { IsSizeOf (view seat.new) place result }
        ensures sound { IsSound S.RecSort (plan_of self.now) (view seat.new) }
    {
        self.load::<false>(&mut seat.seat, place) / (1 << 32)
    }

    /// Word i of a known place's record.
    pub fn word(&self, seat: &mut RowSeat<S>, place: u64, i: u64) -> u64
        requires seat { IsSeatOf self.now seat.old }
        requires known { IsKnown self.now seat.old place }
        requires inside { IsBelowSize (view seat.old) place i }
        ensures seat { IsSeatOf self.now seat.new }
        ensures learns { Learns (view seat.old) (view seat.new) }
        ensures word { IsWordOf (view seat.new) place i result }
        ensures sound { IsSound S.RecSort (plan_of self.now) (view seat.new) }
    {
        let slot = self.load::<false>(&mut seat.seat, place);
        let start = slot % (1 << 32);
        self.read(&mut seat.seat, place, slot, start + i)
    }
}
