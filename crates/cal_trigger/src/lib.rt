//! Stored conditions: functions that a program keeps beside the fact that they decide conditions of
//! WHERE on every record, and queries over what these let through.
//!
//! The layer above uses that a `Trigger` answers by its conditions' own meaning (`where_holds`),
//! without memory, and that a `Watch` gives the answer over exactly the records for which that is
//! true. Nothing is promised of what else a trigger's function does, nor of time.
#![tactic(auto)]

mod beside;
mod laws;
mod main_function;
mod slow;
mod trigger;
mod triggers;
mod watch;

pub use laws::conditions_in_front_law;
pub use main_function::{is_in_main, main_conditions};
pub use slow::{is_slow, slow_conditions};
pub use trigger::Trigger;
pub use triggers::Triggers;
pub use watch::Watch;
