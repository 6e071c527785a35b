//! The seats of one book are joined, and the book is closed.
ghost use Rattle.std.specs.Prelude.{◌≡◌, None, Some, length, map};
ghost use Rattle.cal_book.specs.Closing.{AllMetHadTurns};
ghost use Rattle.cal_book.specs.Seats.{IsSeatOf, shape_of, view};
ghost use Rattle.cal_closing.specs.Parts.{AreMadeFor, all_of};
ghost use Rattle.cal_closing.specs.Seats.{AreThreadSeats, accounts_of, given_by};
ghost use Rattle.cal_table.specs.Tables.{Same};

use cal_table::{Book, BookSeat, Table};

/// Joins the seats that all threads had at a book, in the order of their numbers, and closes it:
/// the table of all parts that the threads have given. It merges nothing, and takes no memory.
pub fn close_book(book: Book, mut first: BookSeat, seats: Vec<BookSeat>) -> Table
    requires seat { IsSeatOf book first }
    requires first { (view first).thread ≡ None }
    requires seats { AreThreadSeats book seats.items }
    requires all { length (view first).others ≡ length seats.items }
    ensures merged { Same result
        (all_of (shape_of book) (given_by (accounts_of seats.items))) }
    ensures given { AreMadeFor (shape_of book) (accounts_of seats.items) }
    ensures met { AllMetHadTurns (accounts_of seats.items) }
{
    join_seats(&book, &mut first, seats);
    book.close(first)
}

// The first seat takes in the others, the last one first.
fn join_seats(book: &Book, first: &mut BookSeat, mut seats: Vec<BookSeat>)
    requires seat { IsSeatOf book.now first.old }
    requires first { (view first.old).thread ≡ None }
    requires seats { AreThreadSeats book.now seats.items }
    requires all { length (view first.old).others ≡ length seats.items }
    ensures seat { IsSeatOf book.now first.new }
    ensures first { (view first.new).thread ≡ None }
    ensures told { (view first.new).others ≡ map Some (accounts_of seats.items) }
{
    while let Some(seat) = seats.pop() {
        book.join(first, seat);
    }
    seats.destroy_empty();
}
