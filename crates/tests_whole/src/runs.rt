//! Runs of a script to its records, and what they leave.
ghost use Rattle.cal_script.specs.Reading.{IsValidScript};

use crate::scripts::clocks_of;
use cal_base::{MemClock, OpenGate};
use cal_journal::print_journal;
use cal_run::Formulas;
use cal_script::{Journal, Script};
use cal_value::Records;
use cal_whole::{Ran, replay};
use cal_write::cali_text;
use std::alloc::Global;
use std::hash::RandomState;
use std::thread::Threads;

/// A run by these clocks, if there is one for each thread and the run succeeds.
pub(crate) fn run_by<R: Threads + Sync>(
    rt: &R,
    alloc: Global,
    hashers: RandomState,
    script: &Script,
    real: bool,
    clocks: &mut Vec<MemClock>,
) -> Option<Ran>
    requires { IsValidScript script.now }
{
    if clocks.len() < script.threads.len() {
        return None;
    }
    replay(
        rt, alloc, hashers, script, real, clocks, &OpenGate, &Formulas,
    )
    .ok()
}

/// A run by the script's clock.
pub(crate) fn run<R: Threads + Sync>(
    rt: &R,
    alloc: Global,
    hashers: RandomState,
    script: &Script,
) -> Option<Ran>
    requires { IsValidScript script.now }
{
    let mut clocks = clocks_of(alloc, script.threads.len(), &[]).ok()?;
    let ran = run_by(rt, alloc, hashers, script, false, &mut clocks);
    drop(clocks);
    ran
}

/// Whether records have this text.
pub(crate) fn has_text(alloc: Global, records: &Records, text: &str) -> bool {
    match cali_text(alloc, records) {
        Ok(written) => written.as_str() == text,
        Err(_) => false,
    }
}

/// Whether a journal has this text.
pub(crate) fn has_journal(alloc: Global, journal: &Journal, text: &str) -> bool {
    match print_journal(alloc, journal) {
        Ok(printed) => printed.as_str() == text,
        Err(_) => false,
    }
}
