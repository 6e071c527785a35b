//! Runs of several threads side by side, whose journals depend on the schedule and are lawful.
ghost use Rattle.cal_script.specs.Reading.{IsValidScript};
ghost use Rattle.cal_script.specs.Valid.{IsRunnable};

use crate::runs::{is_lawful, run};
use crate::scripts::{clocks_of, runnable};
use cal_base::MemClock;
use cal_script::Script;
use cal_value::{OutOfMemory, Text};
use std::alloc::Global;
use std::hash::RandomState;
use std::test::Fail;
use std::thread::Threads;

/// Two threads that share a phase, and flush into one book.
const SHARED: &str = "attribute phase string 268\nattribute function string 276\n\
    channel t trace\nchannel p aggregate\nkey phase\nthread\nbegin phase one\n\
    begin function main\nsnapshot\nflush p\nend phase\nsnapshot\nend phase\nthread\n\
    set phase two\nsnapshot\nflush p\nend phase\nsnapshot\nflush p\nbegin phase three\n";

/// What a script of any number of threads declares.
const HEADER: &str = "attribute phase string 268\nattribute function string 276\n\
    channel t event,timer,trace\nchannel p aggregate\nkey phase\n";

/// The lines of each of its threads.
const THREAD: &str = "thread\nbegin phase one\nbegin function main\nsnapshot\nflush p\n\
    end phase\nset phase two\ntick 3\nend function\nsnapshot\nflush p\n";

/// A script of so many threads, all of the same lines.
fn text_of(alloc: Global, threads: u32) -> Result<Text, OutOfMemory> {
    let mut text = Text::from_str(alloc, HEADER)?;
    for _thread in 0..threads {
        text.push_str(THREAD)?;
    }
    Ok(text)
}

/// Whether one run of a script, by the script's clock, leaves a lawful journal.
fn runs_lawfully<R: Threads + Sync>(
    rt: &R,
    alloc: Global,
    hashers: RandomState,
    script: &Script,
    clocks: &mut Vec<MemClock>,
) -> bool
    requires valid { IsValidScript script.now }
    requires runnable { IsRunnable script.now }
{
    match run(rt, alloc, hashers, script, false, clocks) {
        Some(journal) => is_lawful(alloc, script, &journal),
        None => false,
    }
}

/// Whether each of so many runs does.
fn all_run_lawfully<R: Threads + Sync>(
    rt: &R,
    alloc: Global,
    hashers: RandomState,
    script: &Script,
    clocks: &mut Vec<MemClock>,
    rounds: u32,
) -> bool
    requires valid { IsValidScript script.now }
    requires runnable { IsRunnable script.now }
{
    let mut lawful = true;
    for _round in 0..rounds {
        lawful = lawful && runs_lawfully(rt, alloc, hashers, script, clocks);
    }
    lawful
}

/// Whether so many runs of a text with so many threads leave lawful journals.
fn are_lawful<R: Threads + Sync>(
    rt: &R,
    alloc: Global,
    hashers: RandomState,
    text: &str,
    threads: u32,
    rounds: u32,
) -> Result<bool, Fail> {
    let mut clocks = clocks_of(alloc, threads, &[])?;
    let script = runnable(alloc, text)?;
    let lawful = all_run_lawfully(rt, alloc, hashers, &script, &mut clocks, rounds);
    drop(script);
    drop(clocks);
    Ok(lawful)
}

/// The same of threads whose lines are all alike.
fn alike_are_lawful<R: Threads + Sync>(
    rt: &R,
    alloc: Global,
    hashers: RandomState,
    threads: u32,
    rounds: u32,
) -> Result<bool, Fail> {
    let text = text_of(alloc, threads)?;
    let lawful = are_lawful(rt, alloc, hashers, text.as_str(), threads, rounds);
    drop(text);
    lawful
}

#[test]
fn two_threads_leave_a_lawful_journal_in_a_thousand_runs(rt: HostRuntime) -> Result<(), Fail> {
    let hashers = RandomState::new(&rt)?;
    let lawful = are_lawful(&rt, rt.alloc(), hashers, SHARED, 2, 1000)?;
    assert!(rt; lawful);
    Ok(())
}

#[test]
fn four_threads_leave_one_in_ten_runs(rt: HostRuntime) -> Result<(), Fail> {
    let hashers = RandomState::new(&rt)?;
    let lawful = alike_are_lawful(&rt, rt.alloc(), hashers, 4, 10)?;
    assert!(rt; lawful);
    Ok(())
}

#[test]
fn sixteen_threads_leave_one(rt: HostRuntime) -> Result<(), Fail> {
    let hashers = RandomState::new(&rt)?;
    let lawful = alike_are_lawful(&rt, rt.alloc(), hashers, 16, 1)?;
    assert!(rt; lawful);
    Ok(())
}
