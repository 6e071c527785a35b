//! The top call `run_files`: a query over the rows of many files, one stream a process of a run.
//!
//! The program picks it by the first word. What stands on it: with status 0 the output has grown by
//! exactly the layout of the query's answer over the rows of all files, in the order in which the
//! words name them; every other status has its cause, and names the first file that is at fault.
//! That files are folded at the same time is by no clause; nor is anything promised of time.
#![tactic(auto)]

mod answering;
mod fault;
mod filing;
mod names;
mod options;
mod outcome;
mod report;
mod words;

pub use fault::FilesFault;
pub use filing::run_files;
pub use outcome::FilesOutcome;
pub use report::put_files_fault;
pub use words::{FilesCommand, asks_for_files, read_files_words};
