//! LET and WHERE: what a query makes of one record.
//!
//! `apply` gives the record with the entries that LET adds, or nothing where WHERE drops it, as
//! `kept` says. A `Filter` is the same over snapshots by number, for a program that takes many: it
//! keeps what it needs of nodes and attributes beside their numbers, and compares no name for a
//! record. Nothing is promised of time.
#![tactic(auto)]

mod arithmetic;
mod attribute_memo;
mod attribute_names;
mod condition;
mod counts;
mod definition;
mod filter;
mod find;
mod kinds;
mod latest;
mod laws;
mod memo;
mod number;
mod operands;
mod operation;
mod record;
mod relation;
mod results;
mod seeker;
mod wanted;

pub use attribute_memo::AttributeMemo;
pub use counts::Counts;
pub use filter::Filter;
pub use laws::{filters_stay, numbers_stay_small};
pub use memo::NodeMemo;
pub use number::{number_in, value_of_number};
pub use operands::catch_up_all;
pub use record::apply;
pub use results::result_attribute;
pub use seeker::Seeker;
