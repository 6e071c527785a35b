//! The flush cell: one table that many threads merge their parts into, each while it holds the
//! turn.
#![tactic(auto)]

mod answer;
mod cell;
mod close;
mod content;
mod flush;
mod merging;
mod new;
mod rule;
mod seat;
mod split;
mod turn;
mod view;

pub use answer::FlushAnswer;
pub use cell::FlushCell;
pub use content::{Content, Numbers};
pub use merging::{Merge, Merging};
pub use seat::FlushSeat;
pub use view::{Account, Turn, View};
