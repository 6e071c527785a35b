ghost use Rattle.std.specs.Prelude.{◌≡◌, ◌+◌, ◌≤◌, ◌^◌, [], None, Some, IsSome, sum_by};
ghost use Rattle.cal_book.specs.Flushes.{Answers};
ghost use Rattle.cal_book.specs.Seats.{IsAt, IsSeatOf, shape_of, view};

use crate::{Content, FlushAnswer, FlushCell, FlushSeat, Merge, View};
use atomic_table::Seat;
use cal_value::Seq;

impl<T: Merge<Q> + Drop, Q> FlushCell<T, Q> {
    /// Merges a part into the table, where one exchange gets the turn; else it hands the part back.
    /// Nobody waits. It costs a merge at most, and takes the memory that the merge takes.
    pub fn flush(&self, seat: &mut FlushSeat<T, Q>, part: T) -> FlushAnswer<T>
        requires seat { IsSeatOf self.now seat.old }
        requires split_off { IsSome (view seat.old).thread }
        requires made { T.Merging.made_for (shape_of self.now) part }
        requires few { sum_by T.Merging.size (view seat.old).account.given
            + T.Merging.size part ≤ 2 ^ 20 }
        ensures seat { IsSeatOf self.now seat.new }
        ensures answers { Answers (view seat.old) (view seat.new) part result }
    {
        let Some(thread) = seat.thread else {
            unreachable!()
        };
        self.turn(&mut seat.seat, thread, part)
    }

    fn turn(&self, seat: &mut Seat<Content<T>, View<T, Q>>, thread: u32, part: T) -> FlushAnswer<T>
        requires seat { IsAt self.now seat.old }
        requires thread { seat.old.me.0.thread ≡ Some thread }
        requires idle { seat.old.me.0.turn ≡ None }
        requires bare { seat.old.me.1 ≡ [] }
        requires made { T.Merging.made_for (shape_of self.now) part }
        requires few { sum_by T.Merging.size seat.old.me.0.account.given
            + T.Merging.size part ≤ 2 ^ 20 }
        ensures seat { IsAt self.now seat.new }
        ensures bare { seat.new.me.1 ≡ [] }
        ensures answers { Answers seat.old.me.0 seat.new.me.0 part result }
    {
        let said = Content {
            table: part,
            numbers: Seq::new(self.alloc),
        };
        let found = self.take(seat, thread, &said);
        let Content {
            table: part,
            numbers: _,
        } = said;
        if found != 0 {
            let holder = (found - 1) as u32;
            return FlushAnswer::Busy { holder, part };
        }
        match self.fill(seat, thread, part) {
            Ok(()) => FlushAnswer::Merged,
            Err(part) => FlushAnswer::OutOfMemory { part },
        }
    }
}
