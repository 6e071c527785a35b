//! Laws of a run's tables of numbered snapshots. Nothing here is ever run.
//!
//! A table holds keys by numbers: nodes of the shared tree, and numbers of attributes. By what a
//! seat knows of the tree each key means a record, and then the rows are those of the channel's
//! table of the records that the snapshots mean (`tables_have_the_rows_of_records`). Several tables
//! have together the groups of all their snapshots (`tables_together_have_the_groups_of_traces`).
//! How a run comes to its tables isn't said here.
#![tactic(auto)]

mod laws;

pub use laws::{
    names_of_runs_are_apart, rows_have_one_meaning, tables_have_the_rows_of_records,
    tables_together_have_the_groups_of_traces,
};
