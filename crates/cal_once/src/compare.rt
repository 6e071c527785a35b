ghost use Rattle.std.specs.Prelude.{◌≡◌, ◌+◌, ◌<◌, IsTrue, IsFalse};
ghost use Rattle.std.specs.Bool.{OnTrue, OnFalse};
ghost use Rattle.cal_once.specs.Views.{Saw, Holds, HoldsOther, Learns};
ghost use Rattle.cal_once.specs.Sound.{IsSound};
ghost use Rattle.cal_once.specs.Seats.{IsAt, plan_of};

use crate::{Rows, View};
use atomic_table::Seat;
use cal_words::{Packed, RecSort};

impl<S: RecSort> Rows<S> {
    // Whether the place, whose slot's word is `slot`, holds the record.
    pub(crate) fn compare<P: Packed<S>>(
        &self,
        seat: &mut Seat<u8, View<S>>,
        rec: &P,
        place: u64,
        slot: u64,
    ) -> bool
        requires seat { IsAt self.now seat.old }
        requires place { place < (plan_of self.now).shape.slots }
        requires known { Saw seat.old.me.0.seen (place + 1) slot }
        requires sound { IsSound S.RecSort (plan_of self.now) seat.old.me.0 }
        ensures seat { IsAt self.now seat.new × (seat.new.me.1 ≡ seat.old.me.1) }
        ensures same { OnTrue result (Holds seat.new.me.0 place (P.words rec.now)) }
        ensures other { OnFalse result (HoldsOther seat.new.me.0 place (P.words rec.now)) }
        ensures learns { Learns seat.old.me.0 seat.new.me.0 }
        ensures sound { IsSound S.RecSort (plan_of self.now) seat.new.me.0 }
    {
        let size = rec.len();
        if slot / (1 << 32) != size {
            return false;
        }
        let start = slot % (1 << 32);
        for i in 0..size {
            let word = self.read(seat, place, slot, start + i);
            if !rec.matches(i, word) {
                return false;
            }
        }
        true
    }
}
