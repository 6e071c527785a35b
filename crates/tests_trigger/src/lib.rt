//! Tests of stored conditions: a program's two triggers, asked of records of every kind of value,
//! and queries over what they let through.
#![tactic(auto)]

mod asking;
#[cfg(test)]
mod kinds;
#[cfg(test)]
mod queries;
#[cfg(test)]
mod records;
mod watching;

pub use asking::{Decided, answers, is_slow_or_timeless};
pub use watching::watched;
