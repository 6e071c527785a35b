//! Where the fault of a CalQL text is: at the first token that can't be taken.
//!
//! `fault_place_law` says it of the grammar: the tokens before it begin some query, or a text in
//! which all that is wrong is found later; and no text that goes on with this token, or with those
//! that the fault is about, means one. A law costs nothing.
#![tactic(auto)]

mod laws;

pub use laws::fault_place_law;
