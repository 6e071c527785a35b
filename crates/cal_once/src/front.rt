ghost use Rattle.std.specs.Prelude.{◌≡◌, ◌+◌, ◌<◌, ◌≤◌, length, take, IfOk, OnOk};
ghost use Rattle.cal_once.specs.Layout.{size_in};
ghost use Rattle.cal_once.specs.Seats.{HasFront, IsAt, IsKnown, IsSeatOf, plan_of, view};
ghost use Rattle.cal_once.specs.Sound.{IsSound};
ghost use Rattle.cal_once.specs.Views.{Begins, Holds, Learns, Saw};

use crate::{RowSeat, Rows, View};
use atomic_table::Seat;
use cal_value::OutOfMemory;
use cal_words::RecSort;

impl<S: RecSort> Rows<S> {
    /// Writes the first words of a known place's record over `words`, by one load more than words.
    pub fn front(&self, seat: &mut RowSeat<S>, place: u64, words: &mut [u64])
        requires seat { IsSeatOf self.now seat.old }
        requires known { IsKnown self.now seat.old place }
        requires long { HasFront (view seat.old) place (length words.old) }
        ensures seat { IsSeatOf self.now seat.new }
        ensures learns { Learns (view seat.old) (view seat.new) }
        ensures front { Begins (view seat.new) place words.new }
        ensures same { length words.new ≡ length words.old }
        ensures sound { IsSound S.RecSort (plan_of self.now) (view seat.new) }
    {
        let slot = self.load::<false>(&mut seat.seat, place);
        self.first_words(&mut seat.seat, place, slot, words);
    }

    /// The words of a known place's record, which replace what `words` held, by one load more than
    /// words. After want of memory `words` holds some of them.
    pub fn record(
        &self,
        seat: &mut RowSeat<S>,
        place: u64,
        words: &mut Vec<u64>,
    ) -> Result<(), OutOfMemory>
        requires seat { IsSeatOf self.now seat.old }
        requires known { IsKnown self.now seat.old place }
        ensures seat { IsSeatOf self.now seat.new }
        ensures learns { Learns (view seat.old) (view seat.new) }
        ensures record { OnOk result (Holds (view seat.new) place words.new.items) }
        ensures sound { IsSound S.RecSort (plan_of self.now) (view seat.new) }
    {
        let slot = self.load::<false>(&mut seat.seat, place);
        self.all_words(&mut seat.seat, place, slot, words)
    }

    // Writes the first words of the record of a place, whose slot's word is `slot`, over `words`.
    fn first_words(&self, seat: &mut Seat<u8, View<S>>, place: u64, slot: u64, words: &mut [u64])
        requires seat { IsAt self.now seat.old }
        requires place { place < (plan_of self.now).shape.slots }
        requires known { Saw seat.old.me.0.seen (place + 1) slot }
        requires long { length words.old ≤ size_in slot }
        requires sound { IsSound S.RecSort (plan_of self.now) seat.old.me.0 }
        ensures seat { IsAt self.now seat.new × (seat.new.me.1 ≡ seat.old.me.1) }
        ensures learns { Learns seat.old.me.0 seat.new.me.0 }
        ensures front { Begins seat.new.me.0 place words.new }
        ensures same { length words.new ≡ length words.old }
        ensures sound { IsSound S.RecSort (plan_of self.now) seat.new.me.0 }
    {
        let start = slot % (1 << 32);
        for i in 0..words.len() {
            words[i] = self.read(seat, place, slot, start + i as u64);
        }
    }

    // All words of the record of a place, whose slot's word is `slot`.
    fn all_words(
        &self,
        seat: &mut Seat<u8, View<S>>,
        place: u64,
        slot: u64,
        words: &mut Vec<u64>,
    ) -> Result<(), OutOfMemory>
        requires seat { IsAt self.now seat.old }
        requires place { place < (plan_of self.now).shape.slots }
        requires known { Saw seat.old.me.0.seen (place + 1) slot }
        requires sound { IsSound S.RecSort (plan_of self.now) seat.old.me.0 }
        ensures seat { IsAt self.now seat.new × (seat.new.me.1 ≡ seat.old.me.1) }
        ensures learns { Learns seat.old.me.0 seat.new.me.0 }
        ensures record { OnOk result (Holds seat.new.me.0 place words.new.items) }
        ensures sound { IsSound S.RecSort (plan_of self.now) seat.new.me.0 }
    {
        let start = slot % (1 << 32);
        words.clear();
        for i in 0..slot / (1 << 32) {
            let word = self.read(seat, place, slot, start + i);
            words.push(word)?;
        }
        Ok(())
    }
}
