//! Runs of a script to its text, by the script's clock.
ghost use Rattle.std.specs.Prelude.{IfOk};
ghost use Rattle.cal_script.specs.Reading.{IsValidScript};

use cal_base::{Gate, MemClock};
use cal_replayed::{Replayed, replay_text};
use cal_run::Formulas;
use cal_script::{Script, read_script};
use cal_value::{OutOfMemory, Seq};
use std::alloc::Global;
use std::hash::RandomState;
use std::test::Fail;
use std::thread::Threads;

/// The script that a text means.
pub(crate) fn script_of(alloc: Global, text: &str) -> Result<Script, Fail>
    ensures { IfOk result IsValidScript }
{
    let script = read_script(alloc, text.as_bytes())?;
    Ok(script)
}

/// A clock without readings for each of so many threads.
fn clocks_for(alloc: Global, threads: usize) -> Result<Vec<MemClock>, OutOfMemory> {
    let mut clocks = Vec::new(alloc);
    for _thread in 0..threads {
        clocks.push(MemClock::new(Seq::new(alloc)))?;
    }
    Ok(clocks)
}

/// The text and the journal of a run whose threads pass a gate, if there is a clock for each thread
/// and the run succeeds.
fn run_by<R: Threads + Sync, G: Gate + Sync>(
    rt: &R,
    alloc: Global,
    hashers: RandomState,
    script: &Script,
    clocks: &mut Vec<MemClock>,
    gate: &G,
) -> Option<Replayed>
    requires { IsValidScript script.now }
{
    if clocks.len() < script.threads.len() {
        return None;
    }
    replay_text(rt, alloc, hashers, script, false, clocks, gate, &Formulas).ok()
}

/// The text and the journal of a run whose threads pass a gate.
pub(crate) fn run<R: Threads + Sync, G: Gate + Sync>(
    rt: &R,
    alloc: Global,
    hashers: RandomState,
    script: &Script,
    gate: &G,
) -> Option<Replayed>
    requires { IsValidScript script.now }
{
    let mut clocks = clocks_for(alloc, script.threads.len()).ok()?;
    let ran = run_by(rt, alloc, hashers, script, &mut clocks, gate);
    drop(clocks);
    ran
}
