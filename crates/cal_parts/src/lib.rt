//! What is kept of the numbers that contribute to kernels, so that groups can be added up.
//!
//! A `Part` holds the numbers of one kernel in one group, and a `PartTable` those of all groups in
//! one block. `Reading`s say what a record contributes, and `Counters` find it in snapshots by
//! number and add it where the group's parts stand. Each holds what `part_over` says of the numbers
//! that came. Nothing is promised of time.
#![tactic(auto)]

mod counter;
mod counters;
mod finding;
mod narrow_part;
mod part;
mod part_list;
mod part_table;
mod reading;

pub use counters::Counters;
pub use part::Part;
pub use part_table::PartTable;
pub use reading::{Reading, is_named, parts_of, push_some, readings_of};
