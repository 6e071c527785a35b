//! Every interleaving of a run: the events of its lines, one after another.
//!
//! What the lines of a lawful journal do is cut into events, each of which is one step of one
//! thread. `schedule` puts those of all lines into one order that the journal allows. No thread is
//! started here.
#![tactic(auto)]

mod event;
mod events;
mod laws;
mod listing;
mod needs;
mod scheduling;
mod sorting;
mod turn;

pub use event::Event;
pub use events::{first_count, seen_before};
pub use laws::{history_law, replies_law, schedule_law};
pub use needs::placed_node;
pub use scheduling::schedule;
pub use turn::Turn;
