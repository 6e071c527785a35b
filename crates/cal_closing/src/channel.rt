//! A channel's book is closed beside what its threads never flushed.
ghost use Rattle.std.specs.Prelude.{◌≡◌, None, IfOk, length};
ghost use Rattle.cal_book.specs.Closing.{AllMetHadTurns};
ghost use Rattle.cal_book.specs.Seats.{IsSeatOf, shape_of, view};
ghost use Rattle.cal_closing.specs.Parts.{AreMadeFor, AreTablesOf};
ghost use Rattle.cal_closing.specs.Seats.{AreThreadSeats, accounts_of, given_by};

use crate::close_book;
use cal_table::{Book, BookSeat, Table};
use cal_value::OutOfMemory;

/// The tables of all that the threads of a run have taken in a channel: those that they have left,
/// and behind them that of all parts which they gave to its book, by their seats in the order of
/// their numbers. It merges nothing, so a group may stand in several of them. An `Err` is want of
/// memory for one table more in the list, and leaves nothing.
pub fn close_channel(
    book: Book,
    first: BookSeat,
    seats: Vec<BookSeat>,
    left: Vec<Table>,
) -> Result<Vec<Table>, OutOfMemory>
    requires seat { IsSeatOf book first }
    requires first { (view first).thread ≡ None }
    requires seats { AreThreadSeats book seats.items }
    requires all { length (view first).others ≡ length seats.items }
    ensures closed { IfOk result (λ tables. AreTablesOf (shape_of book)
        (given_by (accounts_of seats.items)) left.items tables.items) }
    ensures given { AreMadeFor (shape_of book) (accounts_of seats.items) }
    ensures met { AllMetHadTurns (accounts_of seats.items) }
{
    let table = close_book(book, first, seats);
    let mut tables = left;
    tables.push(table)?;
    Ok(tables)
}
