//! The end of a channel's book: what all threads of a run have flushed, and what they never did.
//!
//! When the threads have ended, their seats are joined and the book is closed (`close_book`); its
//! table stands beside those that the threads have left. The layer above uses that these tables
//! count, together, exactly what all threads have taken in the channel (`close_channel`, with the
//! laws). Nothing is promised where memory ran out.
#![tactic(auto)]

mod book;
mod channel;
mod laws;

pub use book::close_book;
pub use channel::close_channel;
pub use laws::{closed_channel_law, thread_share_law};
