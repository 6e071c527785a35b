//! Snapshots by the nodes of a shared tree.
//!
//! A running thread keeps a snapshot as the numbers of its nodes, with the entries that stand at no
//! node: by their attributes (`Snap`), or by the numbers of these (`NumberedSnap`), which copies no
//! name. `take_snap` and `take_numbered` put the parts of one into their order, which is all that
//! they promise; what a snapshot means, the tree says.
#![tactic(auto)]

mod numbered;
mod parts;
mod snap;

pub use numbered::{NumberedEntry, NumberedSnap, take_numbered};
pub use snap::{Snap, take_snap};
