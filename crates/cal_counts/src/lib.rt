//! How many nodes, snapshots and groups the run of a script has, by its journal.
//!
//! The layer above uses that `count_nodes`, `count_snapshots` and `count_traced` give the numbers
//! of the definitions (`nodes`, `snapshot_count`, `traced_count`), and that the records of groups
//! are the rows of the run without the snapshots in its traces (`run_rows_law`). No snapshot is
//! made, and nothing is promised of time.
#![tactic(auto)]

mod held;
mod laws;
mod snapshots;
mod tree;
mod walking;

pub use laws::run_rows_law;
pub use snapshots::{count_snapshots, count_traced};
pub use tree::count_nodes;
