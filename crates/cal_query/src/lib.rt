//! What a query makes of a stream, piece by piece.
//!
//! The layer above uses `query_text`: the layout of a query's answer over the rows of what an input
//! has left, with the globals joined to each where that is asked, or why there is none. It keeps
//! neither the input nor, for a query without a clause, its rows, unless the globals are joined.
//! `guarded_text` is the same over those rows that a `Guard` lets through, by conditions of WHERE.
//! `fold_whole` gives the fold over a stream that is at hand as a whole, and `lay_out` the layout of
//! an answer in a format, for whoever merges folds. Nothing is promised of what a faulty stream has
//! behind its first fault, which is read and not looked at.
#![tactic(auto)]

mod answering;
mod answering_where;
mod end;
mod folding;
mod guard;
mod guarded;
mod joining;
mod layout;
mod pieces;
mod seeing;
mod streaming;
mod whole;

pub use answering::query_text;
pub use answering_where::guarded_text;
pub use end::RowsEnd;
pub use folding::new_fold;
pub use guard::Guard;
pub use layout::lay_out;
pub use seeing::Seen;
pub use whole::fold_whole;
