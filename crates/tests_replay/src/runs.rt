//! Runs of a script, and whether their journals are those that were expected.
ghost use Rattle.cal_script.specs.Reading.{IsValidScript};
ghost use Rattle.cal_script.specs.Valid.{IsRunnable};

use cal_base::{MemClock, OpenGate};
use cal_journal::{print_journal, read_both};
use cal_lawful::check_journal;
use cal_ran::run_script;
use cal_run::Formulas;
use cal_script::{Journal, JournalText, Script};
use cal_seeds::Seeds;
use std::alloc::Global;
use std::hash::RandomState;
use std::thread::Threads;

/// The journal of a run by real clocks or by the script's, if there is a clock for each thread and
/// the run succeeds.
pub(crate) fn run<R: Threads + Sync>(
    rt: &R,
    alloc: Global,
    hashers: RandomState,
    script: &Script,
    real: bool,
    clocks: &mut Vec<MemClock>,
) -> Option<Journal>
    requires { IsValidScript script.now }
{
    if clocks.len() < script.threads.len() {
        return None;
    }
    match run_script(
        rt, alloc, hashers, script, real, clocks, &OpenGate, &Formulas,
    ) {
        Ok(ended) => Some(ended.journal),
        Err(_) => None,
    }
}

/// Whether a journal has this text.
pub(crate) fn is_text(alloc: Global, journal: &Journal, text: &str) -> bool {
    match print_journal(alloc, journal) {
        Ok(printed) => printed.as_str() == text,
        Err(_) => false,
    }
}

/// A journal with the lines on which it stands.
fn read_journal(alloc: Global, text: &str) -> Option<JournalText> {
    match read_both(alloc, text.as_bytes()) {
        Ok((_, journal)) => journal,
        Err(_) => None,
    }
}

/// Whether a journal's text is that of a lawful one of the script.
fn is_lawful_text(alloc: Global, script: &Script, text: &str) -> bool
    requires { IsRunnable script.now }
{
    match read_journal(alloc, text) {
        Some(journal) => check_journal(alloc, Seeds::fixed(), script, &journal).is_ok(),
        None => false,
    }
}

/// Whether a journal is a lawful one of the script.
pub(crate) fn is_lawful(alloc: Global, script: &Script, journal: &Journal) -> bool
    requires { IsRunnable script.now }
{
    match print_journal(alloc, journal) {
        Ok(text) => is_lawful_text(alloc, script, text.as_str()),
        Err(_) => false,
    }
}
