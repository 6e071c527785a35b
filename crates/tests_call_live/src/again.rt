//! Runs of threads that cross: each leaves a journal in which each flush is merged, and by which
//! `serial` writes the same bytes.

use crate::calls::{NONE, Streams, live, serial, streams_of};
use crate::scripts::{CROSSED, FOUR, THREE};
use cal_call::Outcome;
use cal_journal::print_journal;
use cal_script::{Journal, Reply, ThreadNote};
use cal_value::{OutOfMemory, Text};
use std::alloc::Global;
use std::process::Abort;
use std::random::RandomSource;
use std::sync::Wait;
use std::thread::Threads;

/// How many flushes of a run were answered so.
#[derive(Clone, Copy, Debug, PartialEq, Eq)]
struct Flushes {
    merged: u32,
    busy: u32,
}

impl Flushes {
    fn add(&mut self, reply: Reply) {
        match reply {
            Reply::Merged => self.merged = self.merged.saturating_add(1),
            Reply::Busy { holder: _ } => self.busy = self.busy.saturating_add(1),
            _ => {}
        }
    }

    fn add_all(&mut self, thread: &ThreadNote) {
        for note in thread.lines.as_slice() {
            self.add(note.reply);
        }
    }
}

/// Those of a journal.
fn flushes_of(journal: &Journal) -> Flushes {
    let mut flushes = Flushes { merged: 0, busy: 0 };
    for thread in journal.threads.as_slice() {
        flushes.add_all(thread);
    }
    flushes
}

/// What is told of a run: its status, its flushes, and its script with its journal behind it.
#[derive(Drop)]
struct Told {
    status: u8,
    flushes: Flushes,
    both: Text,
}

/// The text of a journal behind a script.
fn behind(alloc: Global, script: &str, journal: &Journal) -> Result<Text, OutOfMemory> {
    let text = print_journal(alloc, journal)?;
    let mut both = Text::from_str(alloc, script)?;
    both.push_str(text.as_str())?;
    Ok(both)
}

/// What is told of the run of a journal.
fn told_by(alloc: Global, script: &str, status: u8, journal: &Journal) -> Option<Told> {
    let both = behind(alloc, script, journal).ok()?;
    Some(Told {
        status,
        flushes: flushes_of(journal),
        both,
    })
}

/// What an outcome tells.
fn told_of(alloc: Global, script: &str, outcome: Outcome) -> Option<Told> {
    let status = outcome.status;
    match outcome.journal.into_journal(alloc) {
        Ok(journal) => told_by(alloc, script, status, &journal),
        Err(_) => None,
    }
}

/// Whether two calls wrote and told the same.
fn same(left: &Streams, right: &Streams) -> bool {
    left.output.bytes() == right.output.bytes() && left.errors.bytes() == right.errors.bytes()
}

/// Whether `serial` of an input ends with this status, and leaves what these streams have.
fn is_written_again<R: Threads + Sync + RandomSource>(
    rt: &R,
    alloc: Global,
    told: &Told,
    wanted: &Streams,
) -> bool {
    let Ok(mut streams) = streams_of(alloc, told.both.as_str(), NONE) else {
        return false;
    };
    let status = serial(rt, alloc, &mut streams);
    let is_same = same(&streams, wanted);
    drop(streams);
    status == Some(told.status) && is_same
}

/// The flushes of a run of a script over these streams, if `serial` by its journal leaves the same.
fn flushes_over<R: Threads + Wait + Sync + RandomSource>(
    rt: &R,
    alloc: Global,
    option: &str,
    script: &str,
    streams: &mut Streams,
) -> Option<Flushes> {
    let outcome = live(rt, alloc, &["live", option], streams)?;
    let told = told_of(alloc, script, outcome)?;
    let is_same = is_written_again(rt, alloc, &told, streams);
    let flushes = told.flushes;
    drop(told);
    if is_same { Some(flushes) } else { None }
}

/// The flushes of a run of a script, if `serial` by its journal leaves the same.
fn flushes_in<R: Threads + Wait + Sync + RandomSource>(
    rt: &R,
    alloc: Global,
    option: &str,
    script: &str,
) -> Option<Flushes> {
    let mut streams = streams_of(alloc, script, NONE).ok()?;
    let flushes = flushes_over(rt, alloc, option, script, &mut streams);
    drop(streams);
    flushes
}

/// Asserts that in each of fifty runs so many flushes are merged and none is busy.
fn check<R: Abort + AllocGlobal + Threads + Wait + Sync + RandomSource>(
    rt: &R,
    option: &str,
    script: &str,
    merged: u32,
) {
    for round in 0..50u32 {
        let flushes = flushes_in(rt, rt.alloc(), option, script);
        let wanted = Flushes { merged, busy: 0 };
        assert_eq!(rt; flushes, Some(wanted), "round {round}");
    }
}

#[test]
fn two_threads_that_cross_are_told_again(rt: HostRuntime) {
    check(&rt, "--room=1", CROSSED, 3);
}

#[test]
fn three_threads_with_two_profiles_are_told_again(rt: HostRuntime) {
    check(&rt, "--room=1", THREE, 10);
}

#[test]
fn four_threads_are_told_again(rt: HostRuntime) {
    check(&rt, "--room=2", FOUR, 4);
}
