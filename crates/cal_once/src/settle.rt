ghost use Rattle.std.specs.Prelude.{◌≡◌};
ghost use Rattle.cal_once.specs.Seats.{IsAt, plan_of};
ghost use Rattle.cal_once.specs.Sound.{IsSound};
ghost use Rattle.cal_once.specs.Views.{Learns};

use crate::{Rows, View};
use atomic_table::Seat;
use cal_words::RecSort;

impl<S: RecSort> Rows<S> {
    // Makes one load, so that what the rule says of the seat's knowledge is told.
    pub(crate) fn settle(&self, seat: &mut Seat<u8, View<S>>)
        requires { IsAt self.now seat.old }
        ensures seat { IsAt self.now seat.new × (seat.new.me.1 ≡ seat.old.me.1) }
        ensures learns { Learns seat.old.me.0 seat.new.me.0 }
        ensures sound { IsSound S.RecSort (plan_of self.now) seat.new.me.0 }
    {
        let _slots = self.plan.shape.slots;
        let _slot = self.load::<false>(seat, 0);
    }
}
