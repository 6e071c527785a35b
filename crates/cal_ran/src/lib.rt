//! A whole run of a script in threads, to its journal and its rows.
//!
//! `run_script` makes a run, hires its threads and runs each of them as a thread; then it closes
//! the books and ends the threads. What is left (`EndedRun`) has the journal, and hands the rows of
//! all channels to a taker. The layer above uses that this journal is lawful, whatever the schedule
//! was, that each clock was asked for just the readings that are noted, and that the rows are those
//! that the plain meaning of a run gives for the script and this journal. Nothing is promised of a
//! run that ran out of memory, nor of time.
#![tactic(auto)]

mod ended;
mod ending;
mod running;
mod whole;

pub use ended::EndedRun;
pub use whole::run_script;
