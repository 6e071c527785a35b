ghost use Rattle.std.specs.Prelude.{◌≡◌, ◌+◌, ◌<◌, ◌≤◌, length};
ghost use Rattle.cal_once.specs.Layout.{times};
ghost use Rattle.cal_once.specs.Seats.{IsAt, IsSeatOf, plan_of, view};
ghost use Rattle.cal_once.specs.Sound.{IsSound};
ghost use Rattle.cal_once.specs.Views.{AllJoined, Learns, all_published, known_count};

use crate::{RowSeat, Rows, View};
use atomic_table::Seat;
use cal_words::RecSort;

impl<S: RecSort> Rows<S> {
    /// Loads every slot, and counts the places that the seat then knows. Where all seats were
    /// joined, these are the records that were published.
    pub fn filled(&self, seat: &mut RowSeat<S>) -> u64
        requires { IsSeatOf self.now seat.old }
        ensures seat { IsSeatOf self.now seat.new }
        ensures learns { Learns (view seat.old) (view seat.new) }
        ensures known { result ≡ known_count (view seat.new) (plan_of self.now).shape.slots }
        ensures all { AllJoined (view seat.new) → result ≡ length (all_published (view seat.new)) }
        ensures sound { IsSound S.RecSort (plan_of self.now) (view seat.new) }
    {
        self.count(&mut seat.seat)
    }

    // Loads every slot, and counts those that are filled.
    fn count(&self, seat: &mut Seat<u8, View<S>>) -> u64
        requires seat { IsAt self.now seat.old }
        ensures seat { IsAt self.now seat.new × (seat.new.me.1 ≡ seat.old.me.1) }
        ensures learns { Learns seat.old.me.0 seat.new.me.0 }
        ensures known { result ≡ known_count seat.new.me.0 (plan_of self.now).shape.slots }
        ensures all { AllJoined seat.new.me.0 → result ≡ length (all_published seat.new.me.0) }
        ensures sound { IsSound S.RecSort (plan_of self.now) seat.new.me.0 }
    {
        let mut count = 0;
        for place in 0..self.plan.shape.slots {
            count += self.count_one(seat, place);
        }
        count
    }

    // Loads a slot: 1 where it is filled, and 0 where it is empty.
    fn count_one(&self, seat: &mut Seat<u8, View<S>>, place: u64) -> u64
        requires seat { IsAt self.now seat.old }
        requires place { place < (plan_of self.now).shape.slots }
        ensures seat { IsAt self.now seat.new × (seat.new.me.1 ≡ seat.old.me.1) }
        ensures learns { Learns seat.old.me.0 seat.new.me.0 }
        ensures few { result ≤ 1 }
        ensures known { known_count seat.new.me.0 (place + 1)
            ≡ known_count seat.old.me.0 place + result }
        ensures all { AllJoined seat.new.me.0 → times place (all_published seat.new.me.0) ≡ result }
        ensures sound { IsSound S.RecSort (plan_of self.now) seat.new.me.0 }
    {
        if self.load::<false>(seat, place) == 0 {
            return 0;
        }
        1
    }
}
