//! The triggers of the program, and the call that is lent them.

use crate::out_of_memory;
use cal_base::{Sink, Source};
use cal_call::Outcome;
use cal_call_watch::run_watch;
use cal_seeds::Seeds;
use cal_trigger::{Trigger, Triggers, is_in_main, is_slow, main_conditions, slow_conditions};
use cal_value::OutOfMemory;
use std::alloc::Global;
use std::process::ExitCode;

/// Does what the words of `watch` ask for, with the triggers `function=main` and
/// `time.duration.ns>=1000`, and gives the status; where memory for these is refused, it tells so.
pub fn watch<S: Source, W: Sink, E: Sink>(
    alloc: Global,
    seeds: Seeds,
    words: &[String],
    input: &mut S,
    output: &mut W,
    errors: &mut E,
) -> ExitCode {
    match outcome_of(alloc, seeds, words, input, output, errors) {
        Ok(outcome) => ExitCode::from(outcome.status),
        Err(_) => out_of_memory(errors),
    }
}

/// How the call with these triggers ended. An `Err` is want of memory before anything was read.
fn outcome_of<S: Source, W: Sink, E: Sink>(
    alloc: Global,
    seeds: Seeds,
    words: &[String],
    input: &mut S,
    output: &mut W,
    errors: &mut E,
) -> Result<Outcome, OutOfMemory> {
    let main = main_conditions(alloc)?;
    let slow = slow_conditions(alloc)?;
    let main = Trigger::new(main, is_in_main);
    let slow = Trigger::new(slow, is_slow);
    let triggers = Triggers::new(main, slow);
    Ok(run_watch(alloc, seeds, words, input, output, errors, &triggers))
}
