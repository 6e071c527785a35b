//! Laws of what running threads note. Nothing here is ever run.
//!
//! A running thread knows a beginning of the history of process operations. Its notes keep the
//! journal's rules by that beginning, line after line (`next_line_law`), whatever comes behind it
//! (`more_history_law`); and at the end the notes of all threads with the whole history are a
//! lawful journal (`together_law`). Laws cost nothing.
#![tactic(auto)]

mod laws;

pub use laws::{
    more_history_law, next_line_law, same_snapshots_law, start_law, together_law, whole_history_law,
};
