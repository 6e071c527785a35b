//! A running thread with the channels that it keeps.
//!
//! `Channels` are what a thread keeps for the channels of its script: what each has taken, and the
//! hand by which its parts go (`PartHand`), which is here its seats at the books of a run
//! (`BookHand`). They are the keeper that a worker's steps ask for. `Runner` is a worker with them;
//! the layer above uses that over all its lines each channel has taken what the plain meaning of a
//! run takes, part by part as it was flushed. Nothing is promised of a runner that ran out of
//! memory.
#![tactic(auto)]

mod book_hand;
mod channels;
mod hand;
mod runner;

pub use book_hand::BookHand;
pub use channels::Channels;
pub use hand::PartHand;
pub use runner::Runner;
