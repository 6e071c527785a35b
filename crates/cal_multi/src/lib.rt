//! The answer of a query over many streams that are at hand, folded side by side.
//!
//! The layer above uses that `answer_many` gives the answer over the rows of all files, in the order
//! of the files and whatever the schedule is, or the first fault of the first file that has one.
//! Nothing is promised of when memory is there, or that files are folded at the same time.
#![tactic(auto)]

mod end;
mod joining;
mod many;
mod share;

pub use end::ManyEnd;
pub use many::answer_many;
