//! What a thread that runs knows of the process: a beginning of the history of process operations,
//! and the process's board behind it.
//!
//! A replica takes in operations from the history that all threads append to. The layers above use
//! that its board is always the process's board behind exactly those operations that its seat has
//! read, that a look ends at a slot which was found empty, and that an operation of the thread is
//! placed behind all that it has seen. Nothing is promised of a replica that ran out of memory, or
//! of when an operation is seen.
#![tactic(auto)]

mod common;
mod laws;
mod performing;
mod placing;
mod process_ops;
mod replica;
mod room_laws;
mod taking;
mod tree_laws;

pub use common::Common;
pub use laws::process_line_law;
pub use performing::perform;
pub use process_ops::op_of_line;
pub use replica::Replica;
pub use room_laws::{history_never_full_law, words_in_use_law};
pub use tree_laws::{room_for_nodes_law, tree_never_full_law, words_in_tree_law};
