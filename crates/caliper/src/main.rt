//! The program `caliper`: it lends its runtime, its words, its clocks, its probes, its triggers and
//! its standard streams to the top call that the first word picks.
//!
//! What is promised of a run stands in `cal_call`, `cal_call_live`, `cal_call_watch`,
//! `cal_call_names` and `cal_call_files`, which are handed on here. What standard input and files
//! hold, where standard output leads and what the machine's clock shows, no contract can say.
#![tactic(auto)]

mod clocks;
mod filing;
mod living;
mod naming;
mod picking;
mod probes;
mod serving;
mod watching;
mod words;

use crate::picking::answer;
use crate::words::words_of;
use cal_base::{Sink, StdSink, StdSource};
pub use cal_call::{
    Command, Fault, INPUT_LIMIT, InputKind, Outcome, Print, RunText, UsedJournal, WordsEnd, about,
    put_fault, read_words, run, run_text, serve, written_journal_law,
};
pub use cal_call_files::{
    FilesCommand, FilesFault, FilesOutcome, asks_for_files, put_files_fault, read_files_words,
    run_files,
};
pub use cal_call_live::{LiveCommand, asks_to_live, read_live_words, run_live};
pub use cal_call_names::{NameReply, NamesOutcome, asks_for_names, read_names_words, run_names};
pub use cal_call_watch::{TriggerName, WatchCommand, asks_to_watch, read_watch_words, run_watch};
use std::process::ExitCode;

/// Lends the words and the standard streams to the call that the first word picks.
fn main(rt: HostRuntime) -> ExitCode {
    let mut input = StdSource::new(rt.stdin());
    let mut output = StdSink::new(rt.stdout());
    let mut errors = StdSink::new(rt.stderr());
    answer(&rt, words_of(&rt), &mut input, &mut output, &mut errors)
}

/// Tells that memory ran out, and gives the status of that.
fn out_of_memory<E: Sink>(errors: &mut E) -> ExitCode {
    put_fault(errors, &Fault::OutOfMemory);
    ExitCode::from(Fault::OutOfMemory.status())
}
