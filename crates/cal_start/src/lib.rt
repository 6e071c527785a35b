//! A run before its first line: what all its threads share, and the threads.
//!
//! `Run::new` makes of a script all that the threads share: the tree and the history, the numbers
//! of attributes, and a book for each channel. `Run::hire` makes a running thread for each thread
//! of the script, with seats of its own. The layer above uses that each may be started at once, and
//! that the first seats know how many were split off from them. Nothing is promised behind want of
//! memory.
#![tactic(auto)]

mod hiring;
mod making;
mod run;
mod shapes;

pub use run::{FirstSeats, Run};
