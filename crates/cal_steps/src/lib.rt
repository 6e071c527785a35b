//! A world in memory, which takes events one after another.
//!
//! It keeps boards of plain values and records with entries of their own.
#![tactic(auto)]

mod begin;
mod boards;
mod groups;
mod held;
mod node;
mod node_board;
mod noted;
mod part;
mod paths;
mod reach;
mod records;
mod rows;
mod scheduled;
mod sight;
mod snapshot;
mod step;
mod thread;
mod turns;
mod world;

pub use sight::Sight;
pub use thread::ThreadState;
pub use world::World;
