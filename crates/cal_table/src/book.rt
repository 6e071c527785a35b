//! The book of a channel: the cell that its threads flush their tables into.

use crate::{Table, TableShape};
use cal_book::{FlushCell, FlushSeat};

/// The book of a channel that aggregates: one merged table, into which each thread flushes its own
/// by its seat.
pub type Book = FlushCell<Table, TableShape>;

/// A thread's seat at a book.
pub type BookSeat = FlushSeat<Table, TableShape>;
