//! A run of a script beside a collector, by the script's clock: its flushes, and its rows' text.
ghost use Rattle.std.specs.Prelude.{◌≤◌, IfOk};
ghost use Rattle.cal_ran.specs.Ended.{IsEnded};
ghost use Rattle.cal_script.specs.Reading.{IsValidScript};

use crate::flushes::{Flushes, flushes_of};
use cal_base::{MemClock, OpenGate};
use cal_context::Taken;
use cal_live_run::run_live_script;
use cal_ran::EndedRun;
use cal_run::Formulas;
use cal_script::{Script, read_script};
use cal_value::{OutOfMemory, Rec, Records, Seq, Text};
use cal_write::cali_text;
use std::alloc::Global;
use std::hash::RandomState;
use std::sync::Wait;
use std::test::Fail;
use std::thread::Threads;

/// What tests look at of what a run leaves.
#[derive(Drop)]
pub(crate) struct Left {
    pub text: Text,
    pub flushes: Flushes,
}

/// The script that a text means.
pub(crate) fn script_of(alloc: Global, text: &str) -> Result<Script, Fail>
    ensures { IfOk result IsValidScript }
{
    let script = read_script(alloc, text.as_bytes())?;
    Ok(script)
}

/// A clock without readings for each of so many threads.
fn clocks_for(alloc: Global, threads: usize) -> Result<Vec<MemClock>, OutOfMemory> {
    let mut clocks = Vec::new(alloc);
    for _thread in 0..threads {
        clocks.push(MemClock::new(Seq::new(alloc)))?;
    }
    Ok(clocks)
}

/// The rows of a run that has ended, without its globals.
fn rows_of(
    alloc: Global,
    _script: &Script,
    ended: &mut EndedRun<'_>,
) -> Result<Records, OutOfMemory>
    requires { IsEnded _script.now ended.old }
{
    let mut taken = Taken::new(alloc);
    ended.take_rows(alloc, &mut taken)?;
    Ok(Records {
        rows: taken.into_rows(),
        globals: Rec {
            paths: Seq::new(alloc),
            imms: Seq::new(alloc),
        },
    })
}

/// What a run that has ended leaves.
fn left_of(alloc: Global, script: &Script, ended: &mut EndedRun<'_>) -> Result<Left, OutOfMemory>
    requires { IsEnded script.now ended.old }
{
    let flushes = flushes_of(&ended.journal);
    let rows = rows_of(alloc, script, ended)?;
    let text = cali_text(alloc, &rows)?;
    Ok(Left { text, flushes })
}

/// What a run by these clocks leaves, if there is one for each thread and the run succeeds.
fn run_by<R: Threads + Wait + Sync>(
    rt: &R,
    alloc: Global,
    hashers: RandomState,
    script: &Script,
    clocks: &mut Vec<MemClock>,
    room: u32,
) -> Option<Left>
    requires script { IsValidScript script.now }
    requires room { (1 ≤ room) × (room ≤ 1024) }
{
    if clocks.len() < script.threads.len() {
        return None;
    }
    let ended = run_live_script(
        rt, rt, alloc, hashers, script, false, clocks, &OpenGate, &Formulas, room,
    );
    match ended {
        Ok(mut ended) => left_of(alloc, script, &mut ended).ok(),
        Err(_) => None,
    }
}

/// What a run with so much room in the collector's mailbox leaves.
pub(crate) fn run<R: Threads + Wait + Sync>(
    rt: &R,
    alloc: Global,
    hashers: RandomState,
    script: &Script,
    room: u32,
) -> Option<Left>
    requires script { IsValidScript script.now }
    requires room { (1 ≤ room) × (room ≤ 1024) }
{
    let mut clocks = clocks_for(alloc, script.threads.len()).ok()?;
    let left = run_by(rt, alloc, hashers, script, &mut clocks, room);
    drop(clocks);
    left
}
