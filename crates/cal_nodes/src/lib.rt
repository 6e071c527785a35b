//! The nodes of a run's shared tree, put into a context, each once.
//!
//! When a run has ended, each node that stands in a trace or a table gets its number in a plain
//! context: `ContextNodes::number_of` reads the nodes on its way up that have none yet, and puts
//! them there, the outermost first. So a snapshot of shared nodes becomes one of the context's by a
//! look at a list for each node (`numbered`). Nothing is promised of which number a node gets.
#![tactic(auto)]

mod ahead;
mod context_nodes;
mod descent;
mod laws;
mod numbers;
mod way;

pub use context_nodes::ContextNodes;
pub use laws::{numbers_stand, numbers_stay_numbered};
