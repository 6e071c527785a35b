//! Blackboards: the values that are open in a thread or in the process, slot by slot.
//!
//! A `Board` keeps, for each open value, what a maker of nodes made for it; contracts see which
//! board of open values that stands for, and that each call does what the table of boards says. A
//! `PathBoard` is that board over plain values. Opening a value is one call of the maker, and
//! closing one none. Nothing is promised of how a slot is found.
#![tactic(auto)]

mod attr;
mod board;
mod draft;
mod entries;
mod laws;
mod looking;
mod maker;
mod opened;
mod opening;
mod path_board;
mod readings;
mod reply;
mod room;
mod slots;
mod stack;

pub use attr::AttrRef;
pub use board::{Board, BoardWithRoom};
pub use draft::Draft;
pub use laws::table_reply_law;
pub use maker::NodeMaker;
pub use opened::{Opened, Slot};
pub use path_board::PathBoard;
pub use readings::Readings;
pub use reply::BoardReply;
pub use room::{Growing, Reserved, Room};
pub use stack::Stack;
