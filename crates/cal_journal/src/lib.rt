//! The journal of a run: what its lines say, behind a script or alone, and its text.
//!
//! `read_both` gives the script and the journal that bytes say, or their first fault by the rules
//! that a reader can test line by line. Whether a journal is one that a run of its script can
//! leave is for the layers above.
#![tactic(auto)]

mod both;
mod ends;
mod kind;
mod laws;
mod numbers;
mod pending;
mod printing;
mod reading;

pub use both::{read_both, read_both_seeded};
pub use ends::BothEnd;
pub use kind::JournalKind;
pub use laws::{journal_behind_script_law, printed_journal_law};
pub use printing::print_journal;
