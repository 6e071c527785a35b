//! The call that has threads declare names.

use cal_base::{Sink, Source};
use cal_call_names::run_names;
use std::process::ExitCode;
use std::thread::Threads;

/// Does what the words of `names` ask for, and gives the status.
pub fn name<R: Threads + Sync + AllocGlobal, S: Source, W: Sink, E: Sink>(
    rt: &R,
    words: &[String],
    input: &mut S,
    output: &mut W,
    errors: &mut E,
) -> ExitCode {
    let outcome = run_names(rt, rt.alloc(), words, input, output, errors);
    ExitCode::from(outcome.status)
}
