//! The top call `run_names`: declarations of names by threads, of which the first of a name stands.
//!
//! The program picks it by the first word. What stands on it: with status 0 or 1 the output has
//! grown by the list of what is kept of the names, in byte order, and each declaration has its
//! reply, however the threads interleave; status 1 comes exactly where some were refused; and every
//! other status has its cause. Nothing is promised of time, of which of two threads is first, or
//! that threads run side by side.
#![tactic(auto)]

mod counting;
mod listing;
mod naming;
mod outcome;
mod reading;
mod sorting;
mod text;
mod words;

pub use cal_naming::NameReply;
pub use naming::run_names;
pub use outcome::NamesOutcome;
pub use words::{asks_for_names, read_names_words};
