//! A run in threads, whole: its journal, its records and how large it was.
//!
//! `replay` runs a script, each of its threads as a thread, and gives the records of the run with
//! entries of their own, which are those that the plain meaning gives for the script and the journal
//! that comes with them. The program writes texts without them; this serves whoever embeds runs.
//! Nothing is promised of a run that ran out of memory.
#![tactic(auto)]

mod whole;

pub use whole::{Ran, replay};
