ghost use Rattle.std.specs.Prelude.{◌≡◌, ◌+◌, [], length};

use crate::View;
use atomic_table::Seat;

/// A seat at a table of write-once rows, with an arena of its own. Contracts see what it knows, as
/// a `View`.
pub struct RowSeat<S> {
    pub(crate) seat: Seat<u8, View<S>>,
    pub(crate) number: u64,
    pub(crate) used: u64,
    // How many seats were made, as the first one knows.
    pub(crate) made: u64,
    ghost number_is: { number ≡ seat.me.0.number },
    ghost used_is: { used ≡ seat.me.0.used },
    ghost made_is: { made ≡ length seat.me.0.others + 1 },
    ghost bare: { seat.me.1 ≡ [] },
}

impl<S> Drop for RowSeat<S> {
    fn drop(self) {
        let Self {
            seat: _,
            number: _,
            used: _,
            made: _,
        } = self;
    }
}

impl<S> RowSeat<S> {
    pub(crate) fn into_seat(self) -> Seat<u8, View<S>>
        ensures seat { result ≡ self.seat }
        ensures bare { result.me.1 ≡ [] }
    {
        let Self {
            seat,
            number: _,
            used: _,
            made: _,
        } = self;
        seat
    }
}
