//! The tree layout of an answer (`tree`).
//!
//! `tree_text` gives exactly the layout of `specs/`: the nodes are the front parts of the rows'
//! hierarchies, from the root down, children in the order in which they are first seen. It takes
//! time in the entries of the rows and the bytes of the lines. Nothing is promised of time.
#![tactic(auto)]

mod chains;
mod columns;
mod headers;
mod label;
mod lines;
mod measured;
mod nodes;
mod order;
mod plan;
mod shown_line;
mod tree;
mod ways;

pub use tree::tree_text;
