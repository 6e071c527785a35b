ghost use Rattle.std.specs.Prelude.{◌≡◌, ◌<◌, ◌≤◌, length};
ghost use Rattle.cal_once.specs.Puts.{Answers, HasRoom, MayPut, PassesOthers, ask_for};
ghost use Rattle.cal_once.specs.Seats.{IsAt, IsSeatOf, plan_of, view};
ghost use Rattle.cal_once.specs.Sound.{IsSound};
ghost use Rattle.cal_once.specs.Views.{IsLater};

use crate::room::Room;
use crate::visit::Spot;
use crate::{Put, RowSeat, Rows, View};
use atomic_table::Seat;
use cal_words::{Packed, RecSort};

impl<S: RecSort> Rows<S> {
    /// Finds a record, or publishes it in the seat's arena. The search begins at the distance
    /// `from` to the record's home. It takes no memory and never waits, and takes time in the
    /// record's words and in the slots that it passes.
    pub fn put<P: Packed<S>>(&self, seat: &mut RowSeat<S>, rec: &P, from: u64) -> Put
        requires seat { IsSeatOf self.now seat.old }
        requires may { MayPut S.RecSort (ask_for S.RecSort (plan_of self.now) (P.words rec.now))
            (view seat.old) }
        requires from { from ≤ (plan_of self.now).shape.slots }
        requires before { PassesOthers (ask_for S.RecSort (plan_of self.now) (P.words rec.now))
            (view seat.old) from }
        ensures seat { IsSeatOf self.now seat.new }
        ensures later { IsLater (view seat.old) (view seat.new) }
        ensures answer { Answers (ask_for S.RecSort (plan_of self.now) (P.words rec.now))
            (view seat.old) (view seat.new) result }
        ensures sound { IsSound S.RecSort (plan_of self.now) (view seat.new) }
    {
        let need = rec.len();
        let room = self.room(seat, need);
        let home = rec.home(self.plan.shape.homes);
        let answer = self.search(&mut seat.seat, rec, room, home, from);
        if let Put::Placed { fresh: true, .. } = answer {
            seat.used += need;
        }
        answer
    }

    // The room that the seat's arena has for so many words.
    fn room(&self, seat: &RowSeat<S>, need: u64) -> Room
        requires seat { IsSeatOf self.now seat.now }
        ensures { HasRoom (plan_of self.now) (view seat.now) need result }
    {
        let arena = self.plan.shape.arena;
        let used = seat.used;
        if need > arena || used > arena - need {
            return Room::Full { used, need };
        }
        Room::Free {
            number: seat.number,
            used,
        }
    }

    // Visits one slot after another, from a distance to the record's home on.
    fn search<P: Packed<S>>(
        &self,
        seat: &mut Seat<u8, View<S>>,
        rec: &P,
        room: Room,
        home: u64,
        from: u64,
    ) -> Put
        requires seat { IsAt self.now seat.old }
        requires home { (home ≡ (ask_for S.RecSort (plan_of self.now) (P.words rec.now)).home)
            × (home < (plan_of self.now).shape.homes) }
        requires may { MayPut S.RecSort (ask_for S.RecSort (plan_of self.now) (P.words rec.now))
            seat.old.me.0 }
        requires room { HasRoom (plan_of self.now) seat.old.me.0 (length (P.words rec.now)) room }
        requires from { from ≤ (plan_of self.now).shape.slots }
        requires before { PassesOthers (ask_for S.RecSort (plan_of self.now) (P.words rec.now))
            seat.old.me.0 from }
        ensures seat { IsAt self.now seat.new × (seat.new.me.1 ≡ seat.old.me.1) }
        ensures answer { Answers (ask_for S.RecSort (plan_of self.now) (P.words rec.now))
            seat.old.me.0 seat.new.me.0 result }
        ensures sound { IsSound S.RecSort (plan_of self.now) seat.new.me.0 }
    {
        let slots = self.plan.shape.slots;
        for distance in from..slots {
            let place = (home + distance) % slots;
            if let Some(answer) = self.visit(seat, rec, room, Spot { place, distance }) {
                return answer;
            }
        }
        let _slot = self.load::<false>(seat, home);
        Put::RowsFull
    }
}
