//! The answer of a query as JSON (`json`).
//!
//! `json_text` gives exactly the layout of `specs/`: one line, an array with an object for each
//! row. Its tokens are written one after another by the kit's `json`, so that no row is kept.
//! Nothing is promised of time.
#![tactic(auto)]

mod keys;
mod members;
mod objects;
mod text;
mod value;

pub use text::json_text;
