//! Runs of forty and of sixty-four threads whose process operations cross: their journals, as
//! `replay` hands them back and as `journal` writes them, are each run ten times by `serial`.

use crate::calls::{Streams, call, status_of, streams_of};
use crate::meetings::{MOST_TURNS, ROOM, behind, is_written_again, told_of};
use cal_base::{Gate, OpenGate};
use cal_value::{OutOfMemory, Text};
use std::alloc::Global;
use std::process::Abort;
use std::random::RandomSource;
use std::sync::atomic::{AtomicU64, Ordering};
use std::thread::Threads;

/// A gate that holds each thread before each of its lines until all threads have come there. So all
/// have done a line before one does the next.
#[derive(Drop)]
struct Rounds {
    threads: u64,
    come: AtomicU64,
    /// How many waits came to no end.
    given_up: AtomicU64,
}

impl Rounds {
    fn new(threads: u32) -> Rounds {
        Rounds {
            threads: u64::from(threads),
            come: AtomicU64::new(0),
            given_up: AtomicU64::new(0),
        }
    }

    /// Waits, but not for ever, until so many have come.
    fn wait(&self, for_so_many: u64) {
        for _turn in 0..MOST_TURNS {
            if self.come.load(Ordering::SeqCst) >= for_so_many {
                return;
            }
        }
        self.given_up.fetch_add(1, Ordering::SeqCst);
    }
}

impl Gate for Rounds {
    fn pass(&self, _thread: u32, line: u32) {
        self.come.fetch_add(1, Ordering::SeqCst);
        self.wait(self.threads.saturating_mul(u64::from(line)));
    }
}

/// What a script of any number of threads declares.
const HEADER: &str = "\
attribute phase string 268
attribute level int 13
attribute function string 276
channel t event,trace
channel p event,aggregate
key phase
";

/// Adds a thread. Its phases, which all threads see, stand inside those of the threads before it,
/// and it ends some that others began; the last end finds nothing open.
fn put_thread(alloc: Global, number: u32, text: &mut Text) -> Result<(), OutOfMemory> {
    let lines = format!(in alloc;
        "thread
begin phase a{number}
begin function main
set level {number}
snapshot
end phase
begin phase b{number}
flush p
end phase
end phase
"
    )?;
    text.push_str(lines.as_str())
}

/// A script of so many threads.
fn script_of(alloc: Global, threads: u32) -> Result<Text, OutOfMemory> {
    let mut text = Text::from_str(alloc, HEADER)?;
    for number in 0..threads {
        put_thread(alloc, number, &mut text)?;
    }
    Ok(text)
}

/// Whether `serial` of an input ends ten times with this status, and leaves what streams have.
fn is_written_ten_times<R: Threads + Sync + RandomSource>(
    rt: &R,
    alloc: Global,
    input: &str,
    status: u8,
    wanted: &Streams,
) -> bool {
    let mut all = true;
    for _round in 0..10u32 {
        all = all && is_written_again(rt, alloc, input, status, wanted);
    }
    all
}

/// Whether `replay` over these streams has refused lines, and hands back a journal of which
/// `serial` writes and tells the same.
fn replay_is_repeated<R: Threads + Sync + RandomSource>(
    rt: &R,
    alloc: Global,
    script: &str,
    streams: &mut Streams,
    gate: &Rounds,
) -> Option<bool> {
    let outcome = call(rt, alloc, &["replay"], streams, gate)?;
    let (status, both) = told_of(alloc, script, outcome)?;
    let same = is_written_ten_times(rt, alloc, both.as_str(), status, streams);
    drop(both);
    Some(status == 1 && same)
}

/// Whether `serial` of an input ends with this status, tells what these streams have, and leaves
/// the same in ten more runs.
fn serial_is_repeated<R: Threads + Sync + RandomSource>(
    rt: &R,
    alloc: Global,
    input: &str,
    status: u8,
    told: &Streams,
) -> Option<bool> {
    let mut streams = streams_of(alloc, input, ROOM).ok()?;
    let found = status_of(rt, alloc, &["serial"], &mut streams, &OpenGate);
    let is_told = streams.errors.bytes() == told.errors.bytes();
    let same = is_written_ten_times(rt, alloc, input, status, &streams);
    drop(streams);
    Some(found == Some(status) && is_told && same)
}

/// Whether `journal` over these streams has refused lines, and writes a journal of which each run
/// by `serial` writes the same, and tells what `journal` told.
fn journal_is_repeated<R: Threads + Sync + RandomSource>(
    rt: &R,
    alloc: Global,
    script: &str,
    streams: &mut Streams,
    gate: &Rounds,
) -> Option<bool> {
    let status = status_of(rt, alloc, &["journal"], streams, gate)?;
    let written = std::str::from_utf8(streams.output.bytes()).unwrap_or("");
    let both = behind(alloc, script, written).ok()?;
    let same = serial_is_repeated(rt, alloc, both.as_str(), status, streams);
    drop(both);
    Some(status == 1 && same?)
}

/// Whether the journal of a run of a script is, by the word that runs it.
fn run_is_repeated<R: Threads + Sync + RandomSource>(
    rt: &R,
    alloc: Global,
    replays: bool,
    script: &str,
    gate: &Rounds,
) -> Option<bool> {
    let mut streams = streams_of(alloc, script, ROOM).ok()?;
    let same = if replays {
        replay_is_repeated(rt, alloc, script, &mut streams, gate)
    } else {
        journal_is_repeated(rt, alloc, script, &mut streams, gate)
    };
    drop(streams);
    same
}

/// Whether that of so many threads is, each of which waited for the others.
fn crossing_is_repeated<R: Threads + Sync + RandomSource>(
    rt: &R,
    alloc: Global,
    replays: bool,
    threads: u32,
) -> Option<bool> {
    let gate = Rounds::new(threads);
    let script = script_of(alloc, threads).ok()?;
    let same = run_is_repeated(rt, alloc, replays, script.as_str(), &gate);
    drop(script);
    let all_came = gate.given_up.load(Ordering::SeqCst) == 0;
    Some(all_came && same?)
}

fn check<R: Abort + AllocGlobal + Threads + Sync + RandomSource>(rt: &R, threads: u32) {
    let replayed = crossing_is_repeated(rt, rt.alloc(), true, threads);
    assert_eq!(rt; replayed, Some(true), "by replay");
    let noted = crossing_is_repeated(rt, rt.alloc(), false, threads);
    assert_eq!(rt; noted, Some(true), "by journal");
}

#[test]
fn journals_of_forty_threads_that_cross_are_run_alike(rt: HostRuntime) {
    check(&rt, 40);
}

#[test]
fn journals_of_sixty_four_threads_that_cross_are_run_alike(rt: HostRuntime) {
    check(&rt, 64);
}
