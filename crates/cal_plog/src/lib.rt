//! The history of process operations: one list that all threads of a run append to, over
//! write-once rows whose records all begin their search at slot 0.
//!
//! The layers above use that what a seat has seen of the history is a beginning of it that stands
//! for good, that an append gives the operation's place, that a seat's own operations stand there
//! once each, in their order, and that `None` tells of an empty slot that was looked at. No call
//! but `new` takes memory, and none waits. Nothing is promised of progress.
#![tactic(auto)]

mod append;
mod laws;
mod log;
mod next;
mod seats;

pub use append::LogFull;
pub use laws::{history_for_good, one_history, own_operations, published_by};
pub use log::{LogSeat, PLog};
