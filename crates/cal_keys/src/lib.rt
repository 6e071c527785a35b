//! The keys of groups by numbers: what the names of GROUP BY take of snapshots, as nodes of a tree.
//!
//! A `Sieve` keeps beside the numbers of a context what is taken of their paths and attributes, so
//! that the key of a snapshot, `GroupKey`, costs its nodes and immediates. Each means the group of
//! the record, as `IsKeyOf` says. A `KeyTable` numbers keys in first-seen order. Ways to groups, and
//! nodes, keys and rows of one context in another, are here too. Nothing is promised of time.
#![tactic(auto)]

mod appending;
mod hashed_keys;
mod immediates;
mod key;
mod key_imms;
mod key_paths;
mod key_table;
mod moving;
mod node_interner;
mod share;
mod share_lists;
mod sieve;
mod single_paths;
mod stepping;
mod takers;
mod ways;
mod within;

pub use appending::append_rows;
pub use immediates::fill_immediates;
pub use key::{GroupKey, key_by_names, key_by_nodes};
pub use key_table::KeyTable;
pub use moving::{Moved, find_way, move_way, moved_nodes, number_in, renumbered_nodes};
pub use sieve::Sieve;
pub use single_paths::own_ways;
pub use ways::{ways_to, ways_to_keys};
pub use within::{are_in, is_in};
