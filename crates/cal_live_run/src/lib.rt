//! A whole run whose parts are collected while it runs.
//!
//! `run_live_script` makes a run and hires its threads, each with a sender to a collector; all of
//! them run beside the collector, which merges what they flush; then what they have left is put
//! beside that, and the threads end. The layer above uses what it uses of `cal_ran`'s `run_script`, and
//! that no flush met another thread's turn. That a call returns isn't promised.
#![tactic(auto)]

mod ending;
mod gathering;
mod handing;
mod hiring;
mod running;
mod whole;

pub use whole::run_live_script;
