//! How large a run is: its threads, lines, nodes, snapshots, groups and bytes.
//!
//! The layer above uses that `summarize` gives these six numbers as they are defined
//! (`summary_of`), of which the bytes are those of the canonical text, and that `summary_text` lays
//! them out. The text itself is counted as it is made, and not kept.
#![tactic(auto)]

mod counting;
mod layout;
mod measuring;
mod summarizing;

pub use layout::summary_text;
pub use summarizing::{Summary, summarize};
