//! Tables of threads: what a thread keeps of its snapshots in place of them.
//!
//! The layers above use that a table stands for the snapshots that were added to it: for whichever
//! keys are asked for, its rows hold how many snapshots have one of them, and of each value
//! attribute the sum and the ends of their last numbers. One table takes another one in, or leaves
//! both. What a node or a number of an attribute means isn't said here.
#![tactic(auto)]

mod book;
mod draft;
mod hints;
mod key;
mod key_nodes;
mod keys;
mod laws;
mod merging;
mod numbering;
mod putting;
mod shape;
mod table;

pub use book::{Book, BookSeat};
pub use key::TableKey;
pub use key_nodes::KeyNodes;
pub use laws::{merges_stand_for_both, tables_hold_snapshots, tables_look_at_few};
pub use numbering::AttributeNumbers;
pub use shape::TableShape;
pub use table::{Table, TableRows};
