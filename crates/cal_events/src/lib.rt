//! The world that takes the events of a run, one after another, in whatever order.
//!
//! A world has the history, what each thread has, the books and the paths that have a node. Its
//! laws say that events of a lawful journal, each the next of its thread at its turn, leave what
//! the plain meaning of the journal has (`world_law`), and that the schedule's leave all of it
//! (`scheduled_world_law`). Laws cost nothing, and no thread is started here.
#![tactic(auto)]

mod laws;

pub use laws::{ended_world_law, scheduled_world_law, world_law};
