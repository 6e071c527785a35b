//! The groups of a channel from its table, when a run has ended.
//!
//! `take_table_groups` hands the records of the groups to a taker, in the order of groups. The
//! layer above uses that they are those of the records that stand in place of the table's rows
//! (`row_record`), which by a law of `cal_profile` are the groups of the snapshots that the table
//! stands for. Nothing is promised of a taker that ran out of memory.
#![tactic(auto)]

mod cell_results;
mod column;
mod columns;
mod groups;
mod keys;
mod numbers;
mod results;
mod rows;

pub use groups::take_table_groups;
