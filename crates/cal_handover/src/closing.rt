//! The books of all channels are closed.
ghost use Rattle.std.specs.Prelude.{◌≡◌, ◌+◌, ◌<◌, List, All, IfOk, OnOk, length, map, take};
ghost use Rattle.cal_channel.specs.Values.{ChannelValue};
ghost use Rattle.cal_handover.specs.Closing.{AreClosed, IsClosed, MayClose, MayCloseAll};
ghost use Rattle.cal_channel.specs.Places.{at_place, lists_of};
ghost use Rattle.cal_handover.specs.Places.{emptied, emptied_at, tables_at};
ghost use Rattle.cal_replay.specs.Flushing.{SeatOf};

use crate::places::{seats_at, tables_at};
use cal_channel::ThreadChannel;
use cal_closing::close_channel;
use cal_table::{Book, BookSeat, Table};
use cal_value::OutOfMemory;
use std::alloc::Global;

/// The tables of each channel of a script, in their order: those that the threads of a run have
/// left in their channels, and that of all that they have flushed. Books, first seats and each
/// thread's lists are by channels in their order. Traces and readings stay in the channels, and the
/// tables there are left empty. An `Err` is want of memory: then the tables are lost, and nothing is
/// said of the channels. It merges nothing, and takes time and memory for the lists alone.
pub fn close_books(
    alloc: Global,
    mut books: Vec<Book>,
    mut firsts: Vec<BookSeat>,
    mut seats: Vec<Vec<BookSeat>>,
    channels: &mut [Vec<ThreadChannel>],
) -> Result<Vec<Vec<Table>>, OutOfMemory>
    requires { MayCloseAll books.items firsts.items (lists_of seats.items)
        (lists_of channels.old) }
    ensures closed { IfOk result (λ tables. AreClosed books.items (lists_of seats.items)
        (lists_of channels.old) (lists_of tables.items)) }
    ensures left { OnOk result
        (lists_of channels.new ≡ map (map emptied) (lists_of channels.old)) }
{
    let mut tables = Vec::with_capacity(alloc, books.len())?;
    while let Some(book) = books.pop() {
        let place = books.len();
        let first = firsts.remove(place);
        let own = close_book_at(alloc, place, book, first, seats.as_mut_slice(), channels)?;
        tables.push(own)?;
    }
    tables.reverse();
    Ok(tables)
}

// Closes the book of a place, which is the last one of the lists of seats: the seats there are
// taken out.
fn close_book_at(
    alloc: Global,
    place: usize,
    book: Book,
    first: BookSeat,
    seats: &mut [Vec<BookSeat>],
    channels: &mut [Vec<ThreadChannel>],
) -> Result<Vec<Table>, OutOfMemory>
    requires last { All (λ (own : List SeatOf). length own ≡ place + 1) (lists_of seats.old) }
    requires within { All (λ (own : List ChannelValue). place < length own)
        (lists_of channels.old) }
    requires may { MayClose book first (at_place place (lists_of seats.old)) }
    ensures closed { IfOk result (λ tables. IsClosed book (at_place place (lists_of seats.old))
        (tables_at place (lists_of channels.old)) tables.items) }
    ensures seats { OnOk result (lists_of seats.new ≡ map (take place) (lists_of seats.old)) }
    ensures channels { OnOk result
        (lists_of channels.new ≡ map (emptied_at place) (lists_of channels.old)) }
{
    let own = seats_at(alloc, place, seats)?;
    let left = tables_at(alloc, place, channels)?;
    let tables = close_channel(book, first, own, left)?;
    Ok(tables)
}
