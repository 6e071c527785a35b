//! The collecting thread: senders hand over the tables that they flush, each for a channel, and one
//! collector merges them while the senders run. In the end the table of each channel stands for all
//! that the senders sent for it (`PartCollector::finish`). Senders wait for room, and the collector
//! for parts; that a call returns isn't promised.
#![tactic(auto)]

mod collect;
mod collector;
mod finish;
mod hand;
mod law;
mod merging;
mod open;
mod part;
mod sender;

pub use collector::PartCollector;
pub use law::{PartLaw, Shapes};
pub use open::open_parts;
pub use part::Part;
pub use sender::PartSender;
