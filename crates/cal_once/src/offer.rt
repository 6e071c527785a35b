ghost use Rattle.std.specs.Prelude.{◌≡◌, ◌+◌, ◌<◌, ◌≤◌, length};
ghost use Rattle.cal_once.specs.Layout.{arena_start, slot_for};
ghost use Rattle.cal_once.specs.Views.{drafted, Learns};
ghost use Rattle.cal_once.specs.Seats.{IsAt, next_word, plan_of};
ghost use Rattle.cal_once.specs.Puts.{MayOffer};
ghost use Rattle.cal_once.specs.Steps.{Offered};

use crate::rule::{Draft, Offer};
use crate::{Rows, View};
use atomic_table::Seat;
use cal_words::{Packed, RecSort};

impl<S: RecSort> Rows<S> {
    // Stores word k of a draft, which begins at the word `start` of the table.
    pub(crate) fn store(&self, seat: &mut Seat<u8, View<S>>, start: u64, k: u64, word: u64)
        requires seat { IsAt self.now seat.old }
        requires arena { seat.old.me.0.number < (plan_of self.now).shape.arenas }
        requires start { start ≡ next_word self.now seat.old.me.0 }
        requires next { k ≤ length seat.old.me.0.draft }
        requires room { seat.old.me.0.used + k < (plan_of self.now).shape.arena }
        ensures seat { IsAt self.now seat.new }
        ensures stored { seat.new.me ≡ (drafted k word seat.old.me.0, seat.old.me.1) }
    {
        self.table
            .shared
            .store::<Draft>(seat, (start + k) as usize, word);
    }

    // Writes a record behind the words that the seat published.
    pub(crate) fn draft<P: Packed<S>>(&self, seat: &mut Seat<u8, View<S>>, rec: &P, start: u64)
        requires seat { IsAt self.now seat.old }
        requires arena { seat.old.me.0.number < (plan_of self.now).shape.arenas }
        requires start { start ≡ next_word self.now seat.old.me.0 }
        requires room { seat.old.me.0.used + length (P.words rec.now)
            ≤ (plan_of self.now).shape.arena }
        requires some { 0 < length (P.words rec.now) }
        ensures seat { IsAt self.now seat.new × (seat.new.me.1 ≡ seat.old.me.1) }
        ensures drafted { seat.new.me.0 ≡ record seat.old.me.0 { draft = P.words rec.now } }
    {
        for k in 0..rec.len() {
            self.store(seat, start, k, rec.word(k));
        }
    }

    // Exchanges the slot of a place, at this distance from the draft's home, against 0. The word
    // that was found.
    pub(crate) fn offer(
        &self,
        seat: &mut Seat<u8, View<S>>,
        place: u64,
        distance: u64,
        word: u64,
    ) -> u64
        requires seat { IsAt self.now seat.old }
        requires word { word
            ≡ slot_for (length seat.old.me.0.draft) (next_word self.now seat.old.me.0) }
        requires may { MayOffer S.RecSort (plan_of self.now) seat.old.me.0
            place distance }
        ensures seat { IsAt self.now seat.new }
        ensures offered { Offered S.RecSort place word seat.old.me result
            seat.new.me }
    {
        let _distance = distance;
        self.table
            .shared
            .compare_exchange::<Offer>(seat, place as usize + 1, 0, word)
    }
}
