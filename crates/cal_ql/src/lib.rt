//! CalQL: the query that a text means, or its first fault.
//!
//! `parse_query` answers the one query of a text, or refuses it for the first token that the
//! grammar can't take, by its byte and what is wrong there. The layers above use that every query
//! is valid: its operators have the arguments that they take, and no two kernels have one result
//! name. Nothing is promised of when memory is there.
#![tactic(auto)]

mod ahead;
mod basic;
mod clauses;
mod conds;
mod copying;
mod end;
mod kernels;
mod kind;
mod laws;
mod lets;
mod names;
mod once;
mod query;
mod reading;
mod rule;
mod scan;
mod select;
mod token;

pub use end::QueryEnd;
pub use kind::QueryKind;
pub use laws::{meaning_law, writing_law};
pub use names::{Format, KernelName, Op};
pub use query::{Agg, Cond, Item, Let, OrderKey, Query, Test};
pub use reading::parse_query;
