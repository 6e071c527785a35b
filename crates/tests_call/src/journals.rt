//! `serial` with a journal behind the script.

use crate::calls::{Streams, call, streams_of};
use crate::rows::{
    Counted, Refused, Words, Written, assert_counted, assert_refused, assert_written,
};
use crate::runs::{
    BUSY, CUT, EXCHANGED, FALLING, GLOBALS, GLOBALS_TEXT, GROUPED, GROUPED_TEXT, REFUSED, SHARED,
    SHARED_TEXT,
};
use crate::scripts::FIRST_TEXT;
use cal_base::OpenGate;
use cal_call::Outcome;
use cal_script::Journal;
use std::alloc::Global;
use std::random::RandomSource;
use std::thread::Threads;

const SERIAL: Words = &["serial"];

const TEXTS: [Written; 4] = [
    (SERIAL, SHARED, SHARED_TEXT),
    (SERIAL, GLOBALS, GLOBALS_TEXT),
    (SERIAL, GROUPED, GROUPED_TEXT),
    (SERIAL, BUSY, ""),
];

const REFUSED_LINES: [Counted; 2] = [
    (
        SERIAL,
        EXCHANGED,
        SHARED_TEXT,
        "caliper: refused lines: 1\n",
    ),
    (SERIAL, REFUSED, FIRST_TEXT, "caliper: refused lines: 1\n"),
];

const FAULTY: [Refused; 3] = [
    (SERIAL, FALLING, "caliper: line 10: SeenFalls\n", 3),
    (SERIAL, CUT, "caliper: line 6: Cut\n", 3),
    (SERIAL, "journal\n", "caliper: line 1: Form\n", 3),
];

fn texts() -> &'static [Written] {
    &TEXTS
}

fn refused_lines() -> &'static [Counted] {
    &REFUSED_LINES
}

fn faulty() -> &'static [Refused] {
    &FAULTY
}

/// How many operations a journal has, the notes of how many threads, and whether its clock is real.
#[derive(Clone, Copy, Debug, PartialEq, Eq)]
pub struct Sizes {
    pub ops: usize,
    pub threads: usize,
    pub real: bool,
}

fn sizes_of(journal: &Journal) -> Sizes {
    Sizes {
        ops: journal.ops.len(),
        threads: journal.threads.len(),
        real: journal.real,
    }
}

/// The sizes of the journal of an outcome.
fn sizes_in(alloc: Global, outcome: Outcome) -> Option<Sizes> {
    match outcome.journal.into_journal(alloc) {
        Ok(journal) => Some(sizes_of(&journal)),
        Err(_) => None,
    }
}

/// The sizes of the journal that a call over streams hands back.
fn sizes_over<R: Threads + Sync + RandomSource>(
    rt: &R,
    alloc: Global,
    words: &[&str],
    streams: &mut Streams,
) -> Option<Sizes> {
    let outcome = call(rt, alloc, words, streams, &OpenGate)?;
    sizes_in(alloc, outcome)
}

/// The sizes of the journal that a call over an input hands back.
pub fn handed_back<R: Threads + Sync + RandomSource>(
    rt: &R,
    alloc: Global,
    words: &[&str],
    input: &str,
) -> Option<Sizes> {
    let mut streams = streams_of(alloc, input, 1000).ok()?;
    let sizes = sizes_over(rt, alloc, words, &mut streams);
    drop(streams);
    sizes
}

const HANDED: [(&str, Sizes); 3] = [
    (
        EXCHANGED,
        Sizes {
            ops: 2,
            threads: 2,
            real: false,
        },
    ),
    (
        REFUSED,
        Sizes {
            ops: 0,
            threads: 1,
            real: false,
        },
    ),
    (
        FALLING,
        Sizes {
            ops: 0,
            threads: 0,
            real: false,
        },
    ),
];

fn handed() -> &'static [(&'static str, Sizes)] {
    &HANDED
}

#[test]
fn runs_are_written(rt: HostRuntime) {
    assert_written(&rt, texts());
}

#[test]
fn refused_lines_are_counted(rt: HostRuntime) {
    assert_counted(&rt, refused_lines());
}

#[test]
fn faults_of_a_journal_are_told(rt: HostRuntime) {
    assert_refused(&rt, faulty());
}

#[test]
fn the_journal_is_handed_back(rt: HostRuntime) {
    for (script, sizes) in handed() {
        let found = handed_back(&rt, rt.alloc(), SERIAL, script);
        assert_eq!(rt; found, Some(*sizes));
    }
}
