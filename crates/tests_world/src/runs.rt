//! The worlds of the journals that runs in threads leave.
ghost use Rattle.std.specs.Prelude.{IfSome};
ghost use Rattle.cal_run.specs.Lawful.{Lawful};
ghost use Rattle.cal_script.specs.Reading.{IsValidScript};
ghost use Rattle.cal_script.specs.Valid.{IsRunnable};

use crate::scripts::{phases_of, profile_of, runnable};
use crate::worlds::is_world_of;
use cal_base::{MemClock, OpenGate};
use cal_run::Formulas;
use cal_script::Script;
use cal_value::{OutOfMemory, Seq, Text};
use cal_whole::{Ran, replay};
use std::alloc::Global;
use std::hash::RandomState;
use std::test::Fail;
use std::thread::Threads;

/// A clock for each of so many threads, which isn't asked.
fn clocks_of(alloc: Global, threads: u32) -> Result<Vec<MemClock>, OutOfMemory> {
    let mut clocks = Vec::new(alloc);
    for _thread in 0..threads {
        clocks.push(MemClock::new(Seq::new(alloc)))?;
    }
    Ok(clocks)
}

/// What a run by the script's clock leaves, if there is a clock for each thread and it succeeds.
fn run<R: Threads + Sync>(
    rt: &R,
    alloc: Global,
    hashers: RandomState,
    script: &Script,
    clocks: &mut Vec<MemClock>,
) -> Option<Ran>
    requires { IsValidScript script.now }
    ensures { IfSome result (λ ran. Lawful script.now ran.journal) }
{
    if clocks.len() < script.threads.len() {
        return None;
    }
    match replay(
        rt, alloc, hashers, script, false, clocks, &OpenGate, &Formulas,
    ) {
        Ok(ran) => Some(ran),
        Err(_) => None,
    }
}

/// Whether one run of a script and the world of its journal end alike.
fn ends_alike<R: Threads + Sync>(
    rt: &R,
    alloc: Global,
    hashers: RandomState,
    script: &Script,
    clocks: &mut Vec<MemClock>,
) -> bool
    requires valid { IsValidScript script.now }
    requires runnable { IsRunnable script.now }
{
    match run(rt, alloc, hashers, script, clocks) {
        Some(ran) => {
            is_world_of(alloc, script, &ran.journal, &ran.records, ran.nodes).unwrap_or(false)
        }
        None => false,
    }
}

/// Whether each of so many runs does.
fn all_end_alike<R: Threads + Sync>(
    rt: &R,
    alloc: Global,
    hashers: RandomState,
    script: &Script,
    clocks: &mut Vec<MemClock>,
    rounds: u32,
) -> bool
    requires valid { IsValidScript script.now }
    requires runnable { IsRunnable script.now }
{
    let mut alike = true;
    for _round in 0..rounds {
        alike = alike && ends_alike(rt, alloc, hashers, script, clocks);
    }
    alike
}

/// Whether so many runs of a text with so many threads do.
fn runs_end_alike<R: Threads + Sync>(
    rt: &R,
    alloc: Global,
    hashers: RandomState,
    text: &str,
    threads: u32,
    rounds: u32,
) -> Result<bool, Fail> {
    let mut clocks = clocks_of(alloc, threads)?;
    let script = runnable(alloc, text)?;
    let alike = all_end_alike(rt, alloc, hashers, &script, &mut clocks, rounds);
    drop(script);
    drop(clocks);
    Ok(alike)
}

/// The same of four threads, ten times.
fn four_end_alike<R: Threads + Sync>(
    rt: &R,
    alloc: Global,
    hashers: RandomState,
    text: Text,
) -> Result<bool, Fail> {
    let alike = runs_end_alike(rt, alloc, hashers, text.as_str(), 4, 10);
    drop(text);
    alike
}

#[test]
fn four_threads_with_one_profile_and_their_world_end_alike(rt: HostRuntime) -> Result<(), Fail> {
    let hashers = RandomState::new(&rt)?;
    let text = profile_of(rt.alloc(), 4)?;
    let alike = four_end_alike(&rt, rt.alloc(), hashers, text)?;
    assert!(rt; alike);
    Ok(())
}

#[test]
fn four_threads_that_share_phases_and_their_world_end_alike(rt: HostRuntime) -> Result<(), Fail> {
    let hashers = RandomState::new(&rt)?;
    let text = phases_of(rt.alloc(), 4)?;
    let alike = four_end_alike(&rt, rt.alloc(), hashers, text)?;
    assert!(rt; alike);
    Ok(())
}
