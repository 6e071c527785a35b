//! Whether a journal is a lawful one of its script, and the records of a run by a lawful one.
//!
//! What a lawful journal is stands in `cal_run`. Here it is tested, rule after rule:
//! `check_journal` answers the first rule that is broken with the first of the input's lines that
//! breaks it, and `run_serial` that or the records. The layer above uses that the fault is exactly
//! this one (`IsRefusalOf`). Nothing is promised of memory.
#![tactic(auto)]

mod end;
mod finding;
mod found;
mod lawful;
mod laws;
mod meeting;
mod merged;
mod order;
mod rows;
mod seen;
mod serial;
mod shape;
mod watch;

pub use end::CoreEnd;
pub use lawful::check_journal;
pub use laws::first_broken_law;
pub use serial::run_serial;
