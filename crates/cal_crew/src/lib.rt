//! All running threads of a run, each as a thread.
//!
//! `run_threads` starts each runner and runs all its lines, each in a thread of its own that asks a
//! clock of its own, and joins the threads. The layer above uses that behind it each runner has
//! done all its lines as `cal_keeping` says of one runner, whatever the schedule was, and that its
//! clock was asked for just the readings that are noted. Nothing is promised of a run that ran out
//! of memory, nor of time, nor that threads run side by side.
#![tactic(auto)]

mod running;
mod shift;

pub use running::{have_all_run, pair, part, run_threads};
pub use shift::Shift;
