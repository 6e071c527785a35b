//! The context tree: the room in which all nodes live, each once, by numbers.
//!
//! A `Context` interns attributes, values and nodes; contracts see each node as its path from the
//! root, and that a context only grows, so what a number means never changes. A `Snapshot` by
//! numbers means a record in a context, and costs its own size, not the depth of its paths; it is
//! handed to a `Taker`, whose contract says which records it has taken. `expand` gives the record
//! itself. Nothing is promised of how fast a look-up is, nor of a taker that ran out of memory.
#![tactic(auto)]

mod context;
mod expansion;
mod interner;
mod laws;
mod link_hasher;
mod links;
mod numbers;
mod snapshot;
mod taker;

pub use context::Context;
pub use expansion::expand;
pub use interner::Interner;
pub use laws::{growth_is_an_order, numbers_stay};
pub use numbers::{AttributeNumber, Link, NodeNumber, ValueNumber};
pub use snapshot::{Immediate, Snapshot};
pub use taker::{Taken, Taker};
