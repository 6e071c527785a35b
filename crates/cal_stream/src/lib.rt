//! The law between the writer and the reader: the canonical text of records reads back as them.
//! Whoever writes records by `cal_write` and reads them by `cal_read` loses nothing; `read_back`
//! says so of both calls together. Nothing is promised of texts that aren't canonical.
#![tactic(auto)]

mod held;
mod laws;
mod round_trip;

pub use laws::records_read_back;
pub use round_trip::read_back;
