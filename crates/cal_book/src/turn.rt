ghost use Rattle.std.specs.Prelude.{◌≡◌, ◌+◌, ◌≤◌, ◌^◌, [], Some, None, OnOk, IfErr, sum_by};
ghost use Rattle.cal_book.specs.Seats.{IsAt, shape_of};
ghost use Rattle.cal_book.specs.Steps.{Takes};
ghost use Rattle.cal_book.specs.Turns.{Carries, Filled};
ghost use Rattle.cal_book.specs.Views.{giving, giving_up};

use crate::content::take_in;
use crate::rule::{Give, GiveUp, Take};
use crate::{Content, FlushCell, Merge, View};
use atomic_table::Seat;

impl<T: Merge<Q> + Drop, Q> FlushCell<T, Q> {
    // One exchange of the word against 0: what it found.
    pub(crate) fn take(
        &self,
        seat: &mut Seat<Content<T>, View<T, Q>>,
        thread: u32,
        said: &Content<T>,
    ) -> u64
        requires seat { IsAt self.now seat.old }
        requires thread { seat.old.me.0.thread ≡ Some thread }
        requires idle { seat.old.me.0.turn ≡ None }
        requires made { T.Merging.made_for (shape_of self.now) said.now.table }
        requires few { sum_by T.Merging.size seat.old.me.0.account.given
            + T.Merging.size said.now.table ≤ 2 ^ 20 }
        ensures seat { IsAt self.now seat.new }
        ensures took { Takes T.Merging (shape_of self.now) said.now.table
            seat.old.me result seat.new.me }
    {
        self.table
            .shared
            .compare_exchange_with::<Take>(seat, 0, 0, thread as u64 + 1, said)
    }

    // Merges the part into the content that the seat carries, and fills the slot. An `Err`: the
    // slot is filled as it was.
    pub(crate) fn fill(
        &self,
        seat: &mut Seat<Content<T>, View<T, Q>>,
        thread: u32,
        part: T,
    ) -> Result<(), T>
        requires seat { IsAt self.now seat.old }
        requires carries { Carries T.Merging (shape_of self.now) thread part seat.old.me }
        ensures seat { IsAt self.now seat.new }
        ensures given { OnOk result (seat.new.me ≡ (giving part seat.old.me.0, [])) }
        ensures given_up { IfErr result (λ back. (back ≡ part)
            × (seat.new.me ≡ (giving_up seat.old.me.0, []))) }
    {
        match self.pour(seat, thread, part) {
            Ok(()) => {
                self.table.shared.store::<Give>(seat, 0, 0);
                Ok(())
            }
            Err(part) => {
                self.table.shared.store::<GiveUp>(seat, 0, 0);
                Err(part)
            }
        }
    }

    // Merges the part into the content that the seat carries.
    fn pour(&self, seat: &mut Seat<Content<T>, View<T, Q>>, thread: u32, part: T) -> Result<(), T>
        requires seat { IsAt self.now seat.old }
        requires carries { Carries T.Merging (shape_of self.now) thread part seat.old.me }
        ensures seat { IsAt self.now seat.new }
        ensures same { seat.new.me.0 ≡ seat.old.me.0 }
        ensures filled { OnOk result
            (Filled T.Merging (shape_of self.now) thread part seat.new.me) }
        ensures refused { IfErr result (λ back. (back ≡ part) × (seat.new.me ≡ seat.old.me)) }
    {
        let content = seat.slot_mut(&self.table.shared, 0);
        match take_in(content, thread, part) {
            Ok(()) => Ok(()),
            Err(part) => Err(part),
        }
    }
}
