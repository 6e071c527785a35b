//! The rows of a run in threads, handed to a taker.
//!
//! When the threads of a run have ended, their traces and the tables of its channels say what was
//! taken in each channel (`specs/Taken.antt`). `take_rows` hands the rows of all channels over, in
//! their order: of each its trace, thread by thread, and then its groups. Each node of the shared
//! tree is put into the context once. The layer above uses that the taker has then taken the rows
//! of exactly those records. Nothing is promised of a taker that ran out of memory.
#![tactic(auto)]

mod channels;
mod groups;
mod numbering;
mod traces;

pub use channels::take_rows;
