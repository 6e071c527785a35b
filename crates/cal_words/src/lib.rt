//! Records as lists of words, as a write-once table holds them: nodes of the context tree, and
//! operations of the process history; and the shape of such a table.
//!
//! The layers above use that a record's `word`, `matches` and `home` speak of one list of words,
//! and that records with equal words are equal. Nothing is copied to be packed, and no call takes
//! memory. That a hash spreads well isn't promised.
#![tactic(auto)]

mod back;
mod full;
mod hash;
mod laws;
mod node;
mod op;
mod packed;
mod shape;
mod sort;
mod text;
mod value;

pub use back::{Node, read_node};
pub use full::TreeFull;
pub use hash::{hash_word, start_hash};
pub use laws::{equal_nodes, equal_ops};
pub use node::{NodeId, NodeRec, know_node};
pub use op::{OpCode, OpRec, know_op, read_op};
pub use packed::Packed;
pub use shape::Shape;
pub use sort::{NodeSort, OpSort, RecSort};
pub use text::{text_len, text_word};
