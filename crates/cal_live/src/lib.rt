//! Running threads whose parts are collected while they run.
//!
//! A `SenderHand` gives what a thread flushes to a collector (`cal_collect`) in place of the books
//! of a run, so that no flush meets another thread's turn. `run_and_collect` runs all threads of a
//! run side by side with the collector. The layer above uses that behind it each thread has run as
//! `cal_crew` says of it, and that all it gave has come. Senders wait for room, and the collector
//! for parts; that a call returns isn't promised.
#![tactic(auto)]

mod running;
mod sending;
mod shift;

pub use running::run_and_collect;
pub use sending::SenderHand;
