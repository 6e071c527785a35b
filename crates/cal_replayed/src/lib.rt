//! The text of a run in threads.
//!
//! `replay_text` runs a script, each of its threads as a thread, and makes the `.cali` text of its
//! records; the journal of what happened comes with it. What stands above uses that this text is
//! that of the records that the plain meaning gives for the script and this journal, however the
//! threads interleaved. Nothing is promised of a run that ran out of memory.
#![tactic(auto)]

mod replaying;

pub use replaying::{Replayed, replay_text, write_ended};
