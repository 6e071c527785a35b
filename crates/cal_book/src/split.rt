ghost use Rattle.std.specs.Prelude.{◌≡◌, ◌<◌, None, length};
ghost use Rattle.cal_book.specs.Seats.{IsSeatOf, threads_of, view};
ghost use Rattle.cal_book.specs.Views.{joined, new_seat, split_off};

use crate::rule::{Meet, Part};
use crate::{FlushCell, FlushSeat, Merging};

impl<T: Merging<Q> + Drop, Q> FlushCell<T, Q> {
    /// The seat of the next thread: of thread 0 at the first split. Only the first seat splits.
    pub fn split(&self, seat: &mut FlushSeat<T, Q>) -> FlushSeat<T, Q>
        requires seat { IsSeatOf self.now seat.old }
        requires first { (view seat.old).thread ≡ None }
        requires some_left { length (view seat.old).others < threads_of self.now }
        ensures seats { IsSeatOf self.now seat.new × IsSeatOf self.now result }
        ensures first { view seat.new ≡ split_off (view seat.old) }
        ensures new { view result ≡ new_seat (view seat.old) }
    {
        let thread = seat.made;
        let new = self.table.shared.split_seat::<Part>(&mut seat.seat);
        seat.made = thread + 1;
        FlushSeat {
            seat: new,
            thread: Some(thread),
            made: 0,
        }
    }

    /// The first seat keeps what the thread of another one has done. That one says nothing more.
    pub fn join(&self, seat: &mut FlushSeat<T, Q>, other: FlushSeat<T, Q>)
        requires seats { IsSeatOf self.now seat.old × IsSeatOf self.now other }
        requires first { (view seat.old).thread ≡ None }
        ensures seat { IsSeatOf self.now seat.new }
        ensures joined { view seat.new ≡ joined (view seat.old) (view other) }
    {
        self.table
            .shared
            .join_seat::<Meet>(&mut seat.seat, other.into_seat());
    }
}
