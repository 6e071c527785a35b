//! What the threads of a run hand over at its end.
//!
//! When all runners have ended they are taken apart (`hand_over`), so that nobody borrows the books
//! any more; then the books are closed (`close_books`). The layer above uses that the tables of each
//! channel are those that the threads have left, and behind them its book's, which stands for
//! exactly what all threads gave to it, and that the traces stay with the channels. Nothing is
//! promised behind want of memory.
#![tactic(auto)]

mod closing;
mod handed;
mod places;

pub use closing::close_books;
pub use handed::{Handed, hand_over};
pub use places::tables_at;
