//! What a query makes of those rows of a stream that a stored trigger lets through.
//!
//! The layer above uses `watched_text`: the layout of the query's answer over exactly those rows of
//! which the trigger's condition holds, as they were read before LET, or why there is none. Nothing
//! is promised of what else a trigger's function does, nor of time.
#![tactic(auto)]

mod asker;
mod asking;
mod condition_guard;
mod decider;
mod knowing;
mod question;
mod triggers;
mod watched;

pub use watched::{TriggerName, watched_text};
