//! Write-once rows: a table in which many threads put records, without locks, and in which each
//! record stands at one place for good.
//!
//! The layers above use that a place which a seat knows never changes, that equal records are at
//! one place, and that a refusal tells what was found. Each call keeps the rule of
//! `specs/Rule.antt` at each of its atomic steps, whatever other seats do. Nothing is promised of
//! progress, of fairness, or of an order in time.
#![tactic(auto)]

mod answer;
mod compare;
mod filled;
mod front;
mod laws;
mod load;
mod look;
mod new;
mod offer;
mod put;
mod room;
mod rows;
mod rule;
mod seat;
mod settle;
mod split;
mod view;
mod visit;

pub use answer::Put;
pub use cal_words::Shape;
pub use laws::{known_for_good, one_place_each};
pub use rows::Rows;
pub use seat::RowSeat;
pub use view::{Plan, View};
