//! The top call `run_watch`: a query over those rows of a stream that a stored trigger lets through.
//!
//! The program picks it by the first word. What stands on it: with status 0 the output has grown by
//! exactly the layout of the query's answer over the rows of which the trigger's condition holds, as
//! they were read; without LET, by what `query` writes for the query with that condition in front of
//! those of its WHERE; and every other status has its cause, as `query`'s. Nothing is promised of
//! what else a trigger's function does, nor of time.
#![tactic(auto)]

mod watching;
mod words;

pub use cal_watch::TriggerName;
pub use watching::run_watch;
pub use words::{WatchCommand, asks_to_watch, read_watch_words};
