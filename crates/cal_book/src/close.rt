ghost use Rattle.std.specs.Prelude.{◌≡◌, None, IsSome, All};
ghost use Rattle.cal_book.specs.Closing.{AllMetHadTurns};
ghost use Rattle.cal_book.specs.Merges.{IsAccount, all_given};
ghost use Rattle.cal_book.specs.Seats.{IsSeatOf, shape_of, view};
ghost use Rattle.cal_book.specs.Views.{joined_accounts};

use crate::{Content, FlushCell, FlushSeat, Merging};

impl<T: Merging<Q> + Drop, Q> FlushCell<T, Q> {
    /// What all threads have given, once each seat that was split off is joined. It takes no
    /// memory.
    pub fn close(self, seat: FlushSeat<T, Q>) -> T
        requires seat { IsSeatOf self seat }
        requires first { (view seat).thread ≡ None }
        requires all_joined { All IsSome (view seat).others }
        ensures merged { T.Merging.same result
            (all_given T.Merging (shape_of self) (joined_accounts (view seat).others)) }
        ensures made { T.Merging.made_for (shape_of self) result }
        ensures given { All (IsAccount T.Merging (shape_of self))
            (joined_accounts (view seat).others) }
        ensures met { AllMetHadTurns (joined_accounts (view seat).others) }
    {
        let FlushCell {
            table,
            threads: _,
            alloc: _,
        } = self;
        let mut closed = table.close_with(seat.into_seat());
        let Content { table, numbers: _ } = closed.take(0);
        closed.free();
        table
    }
}
