//! Tests of stored probes: a program's two functions, handed over and asked. They promise nothing
//! that a contract says.
#![tactic(auto)]

mod asking;

pub use asking::{Answers, all_answers};
