//! What the threads of a run kept, handed on when the run has ended.
//!
//! A thread keeps its snapshots by nodes of the shared tree and by places of the script's values.
//! The layer above uses that a whole trace reaches a taker as the records that it means, in their
//! order (`take_trace`), by snapshots of one plain context. Nothing is promised of a taker after
//! memory ran out.
#![tactic(auto)]

mod laws;
mod placing;
mod tracing;

pub use laws::traces_mean_for_good;
pub use tracing::take_trace;
