//! The records of a run: the traces and the groups that a script and a journal give.
//!
//! `take_run` hands them to a taker as they come, channel by channel; the layer above uses that
//! the taker has then taken the rows of the run (`run_rows`), and `put_globals` the globals.
//! `run_records` gives them with entries of their own. Nothing is promised of a taker that ran
//! out of memory.
#![tactic(auto)]

mod comparing;
mod globals;
mod group_keys;
mod groups;
mod likely;
mod likely_key;
mod query;
mod run;
mod sorting;

pub use globals::put_globals;
pub use groups::take_grouped_rows;
pub use query::channel_query;
pub use run::{run_records, take_plain_run, take_run};
