ghost use Rattle.std.specs.Prelude.{◌≡◌, ◌+◌, ◌<◌, ◌≤◌, length};
ghost use Rattle.cal_once.specs.Puts.{HasRoom, IsReached, MayPut, Visits, ask_for};
ghost use Rattle.cal_once.specs.Seats.{IsAt, plan_of};
ghost use Rattle.cal_once.specs.Sound.{IsSound};
ghost use Rattle.cal_once.specs.Views.{Saw};

use crate::room::Room;
use crate::{Put, Rows, View};
use atomic_table::Seat;
use cal_words::{Packed, RecSort};

/// A place, at a distance from a record's home.
#[derive(Clone, Copy)]
pub struct Spot {
    pub place: u64,
    pub distance: u64,
}

impl<S: RecSort> Rows<S> {
    // Compares a record with the one at a place, whose slot's word is `slot`.
    fn meet<P: Packed<S>>(
        &self,
        seat: &mut Seat<u8, View<S>>,
        rec: &P,
        at: Spot,
        slot: u64,
    ) -> Option<Put>
        requires seat { IsAt self.now seat.old }
        requires at { IsReached (ask_for S.RecSort (plan_of self.now) (P.words rec.now))
            seat.old.me.0 at.place at.distance }
        requires known { Saw seat.old.me.0.seen (at.place + 1) slot }
        requires sound { IsSound S.RecSort (plan_of self.now) seat.old.me.0 }
        ensures seat { IsAt self.now seat.new × (seat.new.me.1 ≡ seat.old.me.1) }
        ensures visits { Visits (ask_for S.RecSort (plan_of self.now) (P.words rec.now))
            seat.old.me.0 seat.new.me.0 at.place result }
        ensures sound { IsSound S.RecSort (plan_of self.now) seat.new.me.0 }
    {
        if self.compare(seat, rec, at.place, slot) {
            return Some(Put::Placed {
                place: at.place,
                fresh: false,
            });
        }
        None
    }

    // Publishes a record at a place whose slot was empty, or compares it with the one that came
    // first.
    fn claim<P: Packed<S>>(
        &self,
        seat: &mut Seat<u8, View<S>>,
        rec: &P,
        number: u64,
        used: u64,
        at: Spot,
    ) -> Option<Put>
        requires seat { IsAt self.now seat.old }
        requires may { MayPut S.RecSort (ask_for S.RecSort (plan_of self.now) (P.words rec.now))
            seat.old.me.0 }
        requires own { (number ≡ seat.old.me.0.number) × (used ≡ seat.old.me.0.used) }
        requires room { seat.old.me.0.used + length (P.words rec.now)
            ≤ (plan_of self.now).shape.arena }
        requires at { IsReached (ask_for S.RecSort (plan_of self.now) (P.words rec.now))
            seat.old.me.0 at.place at.distance }
        requires sound { IsSound S.RecSort (plan_of self.now) seat.old.me.0 }
        ensures seat { IsAt self.now seat.new × (seat.new.me.1 ≡ seat.old.me.1) }
        ensures visits { Visits (ask_for S.RecSort (plan_of self.now) (P.words rec.now))
            seat.old.me.0 seat.new.me.0 at.place result }
        ensures sound { IsSound S.RecSort (plan_of self.now) seat.new.me.0 }
    {
        let shape = self.plan.shape;
        let start = 1 + shape.slots + number * shape.arena + used;
        self.draft(seat, rec, start);
        let found = self.offer(seat, at.place, at.distance, rec.len() * (1 << 32) + start);
        if found == 0 {
            return Some(Put::Placed {
                place: at.place,
                fresh: true,
            });
        }
        self.meet(seat, rec, at, found)
    }

    // Looks at one slot of a search, and publishes the record there where it is empty and there is
    // room.
    pub(crate) fn visit<P: Packed<S>>(
        &self,
        seat: &mut Seat<u8, View<S>>,
        rec: &P,
        room: Room,
        at: Spot,
    ) -> Option<Put>
        requires seat { IsAt self.now seat.old }
        requires may { MayPut S.RecSort (ask_for S.RecSort (plan_of self.now) (P.words rec.now))
            seat.old.me.0 }
        requires room { HasRoom (plan_of self.now) seat.old.me.0 (length (P.words rec.now)) room }
        requires at { IsReached (ask_for S.RecSort (plan_of self.now) (P.words rec.now))
            seat.old.me.0 at.place at.distance }
        ensures seat { IsAt self.now seat.new × (seat.new.me.1 ≡ seat.old.me.1) }
        ensures visits { Visits (ask_for S.RecSort (plan_of self.now) (P.words rec.now))
            seat.old.me.0 seat.new.me.0 at.place result }
        ensures sound { IsSound S.RecSort (plan_of self.now) seat.new.me.0 }
    {
        let slot = match room {
            Room::Full { used, need } => {
                let slot = self.load::<true>(seat, at.place);
                if slot == 0 {
                    return Some(Put::ArenaFull { used, need });
                }
                slot
            }
            Room::Free { number, used } => {
                let slot = self.load::<false>(seat, at.place);
                if slot == 0 {
                    return self.claim(seat, rec, number, used, at);
                }
                slot
            }
        };
        self.meet(seat, rec, at, slot)
    }
}
