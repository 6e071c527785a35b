//! Names that threads declare together, over write-once rows: of each name the first declaration
//! stands.
//!
//! The layers above use that a name which a seat got a place for has that place and that content
//! for good: a later call for the name answers them, and so does any other seat's that is joined
//! into this one. A call takes no memory, and none waits. Nothing is promised of progress, or of
//! which of two declarations that meet is kept.
#![tactic(auto)]

mod declare;
mod laws;
mod names;
mod read;
mod record;
mod seats;
mod walk;

pub use declare::{Declared, NamesFull};
pub use laws::{kept_for_good, one_declaration_each};
pub use names::{NameSeat, Names};
pub use record::{NameRec, NameSort, know_name};
