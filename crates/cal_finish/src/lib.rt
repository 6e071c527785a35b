//! What the threads of a run come to when all have ended.
//!
//! `end_threads` joins their seats and reads the whole history, which makes the journal of the run
//! with what they noted. The layer above uses that this journal is lawful (`ended_runners_law`):
//! each thread's notes keep the rules by what it knows, and whoever held the turn where a flush was
//! busy has merged, since no thread gave a turn up. Nothing is promised of threads that ran out of
//! memory.
#![tactic(auto)]

mod journal;
mod laws;

pub use journal::end_threads;
pub use laws::{ended_runners_law, ended_threads_law, lawful_run_law};
