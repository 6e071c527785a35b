ghost use Rattle.std.specs.Prelude.{◌≡◌, ◌+◌, ◌<◌, ◌≤◌};
ghost use Rattle.cal_once.specs.Layout.{start_in, size_in};
ghost use Rattle.cal_once.specs.Views.{Saw};
ghost use Rattle.cal_once.specs.Sound.{IsSound};
ghost use Rattle.cal_once.specs.Seats.{IsAt, plan_of};
ghost use Rattle.cal_once.specs.Steps.{Looked, Read as ReadsWord};

use crate::rule::{Look, Read};
use crate::{Rows, View};
use atomic_table::Seat;
use cal_words::RecSort;

impl<S: RecSort> Rows<S> {
    // Loads a slot, and may note that it is empty.
    pub(crate) fn load<const NOTED: bool>(&self, seat: &mut Seat<u8, View<S>>, place: u64) -> u64
        requires seat { IsAt self.now seat.old }
        requires place { place < (plan_of self.now).shape.slots }
        ensures seat { IsAt self.now seat.new }
        ensures looked { Looked S.RecSort NOTED place seat.old.me result seat.new.me }
    {
        self.table
            .shared
            .load::<Look<NOTED>>(seat, place as usize + 1)
    }

    // Loads word i of the table, which is one of the record of a place whose slot's word is `slot`.
    pub(crate) fn read(&self, seat: &mut Seat<u8, View<S>>, place: u64, slot: u64, i: u64) -> u64
        requires seat { IsAt self.now seat.old }
        requires place { place < (plan_of self.now).shape.slots }
        requires known { Saw seat.old.me.0.seen (place + 1) slot }
        requires sound { IsSound S.RecSort (plan_of self.now) seat.old.me.0 }
        requires inside { (start_in slot ≤ i) × (i < start_in slot + size_in slot) }
        ensures seat { IsAt self.now seat.new }
        ensures read { ReadsWord S.RecSort i seat.old.me result seat.new.me }
    {
        let _place = place;
        let _slot = slot;
        self.table.shared.load::<Read>(seat, i as usize)
    }
}
