//! What a run writes is read again: the canonical text of its records reads back as them.
//!
//! `cal_stream` has the law of the records that read back; here it is shown that those of each run
//! are such (`readable_records_law`), by whatever journal, and so what a run writes is a stream of
//! its records (`run_reads_back_law`). Nothing is promised of a text that isn't canonical.
#![tactic(auto)]

mod laws;
mod readings;
mod run_back;

pub use laws::{readable_records_law, run_reads_back_law};
pub use run_back::run_read_back;
