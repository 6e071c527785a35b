ghost use Rattle.std.specs.Prelude.{◌≡◌, [], None, length};

use crate::{Content, View};
use atomic_table::Seat;

/// A seat at a flush cell: the first one, or a thread's. Contracts see what it knows, as a `View`.
pub struct FlushSeat<T, Q> {
    pub(crate) seat: Seat<Content<T>, View<T, Q>>,
    pub(crate) thread: Option<u32>,
    // How many seats were split off, as the first one knows.
    pub(crate) made: u32,
    ghost thread_is: { thread ≡ seat.me.0.thread },
    ghost made_is: { made ≡ length seat.me.0.others },
    ghost bare: { seat.me.1 ≡ [] },
    ghost idle: { seat.me.0.turn ≡ None },
}

impl<T, Q> Drop for FlushSeat<T, Q> {
    fn drop(self) {
        let Self {
            seat: _,
            thread: _,
            made: _,
        } = self;
    }
}

impl<T, Q> FlushSeat<T, Q> {
    pub(crate) fn into_seat(self) -> Seat<Content<T>, View<T, Q>>
        ensures seat { result ≡ self.seat }
        ensures bare { result.me.1 ≡ [] }
        ensures idle { result.me.0.turn ≡ None }
    {
        let Self {
            seat,
            thread: _,
            made: _,
        } = self;
        seat
    }
}
