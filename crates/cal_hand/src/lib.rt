//! Blackboards over the shared tree: a tree seat as a maker of nodes, and a board that has all its
//! room from the start.
//!
//! A thread that runs opens values by `begin` and `set` on boards that grow, over a tree that has
//! room for each node. A `SharedBoard` takes no memory for its lines, so it tells a full tree
//! with its numbers. The layers above use what a line does to the board and to the seat: it
//! publishes the node that it puts into a slot, or nothing.
#![tactic(auto)]

mod by_hand;
mod change;
mod hand;
mod last;
mod laws;
mod opening;
mod roomy;
mod shared_board;

pub use change::{Change, operate};
pub use hand::Hand;
pub use laws::boards_for_good;
pub use opening::{begin, set};
pub use shared_board::SharedBoard;
