//! The context tree that all threads of a run grow together, over write-once rows.
//!
//! A node is an entry below a parent: an attribute's number, and a value. The layers above use that
//! a node which a seat knows has one path for good, that nodes are one exactly where their paths
//! are equal, and that both are so across threads once their seats are joined. A child is found or
//! made without waiting and without taking memory. Nothing is promised of progress.
#![tactic(auto)]

mod child;
mod laws;
mod path;
mod read;
mod seats;
mod tree;
mod up;

pub use cal_words::TreeFull;
pub use laws::{one_path_each, paths_for_good};
pub use tree::{Tree, TreeSeat};
pub use up::Up;
