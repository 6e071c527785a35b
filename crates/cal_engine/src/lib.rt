//! The answer of a query on records: groups, kernels, rows and columns.
//!
//! A `SnapshotFold` takes records as snapshots of a context, so that one costs its nodes and
//! immediates and not the depth of its paths; a `Fold` takes them with entries of their own, and
//! `answer` all at once. Each gives the answer that `answer_of` says. What is left of a
//! `SnapshotFold` that ran out of memory isn't promised, nor is time.
#![tactic(auto)]

mod answering;
mod below;
mod columns;
mod filtering;
mod finishing;
mod fold;
mod gate;
mod grouped_rows;
mod grouping;
mod groups;
mod joining;
mod kernel_results;
mod looked;
mod numbered;
mod other_parts;
mod shown_names;
mod small;
mod snapshot_columns;
mod snapshot_fold;
mod snapshot_order;
mod snapshot_rows;
mod sorting;
mod spoken;
mod tally;
mod upwards;
mod visits;

pub use answering::answer;
pub use fold::Fold;
pub use grouped_rows::GroupedRows;
pub use snapshot_fold::SnapshotFold;
