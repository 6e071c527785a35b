//! Rows: calls with their words over an input, and what they leave; and `serial` of scripts alone.

use crate::calls::{Streams, status_of, streams_of};
use crate::scripts::{ESCAPES, ESCAPES_TEXT, FIRST, FIRST_TEXT, NESTED, NESTED_TEXT};
use cal_base::OpenGate;
use std::alloc::Global;
use std::process::Abort;
use std::random::RandomSource;
use std::thread::Threads;

pub type Words = &'static [&'static str];

/// The words and the input of a call, and the text that it writes.
pub type Written = (Words, &'static str, &'static str);

/// The same of one that tells of refused lines, with what it tells.
pub type Counted = (Words, &'static str, &'static str, &'static str);

/// The words and the input of a call that is refused, what it tells, and its status.
pub type Refused = (Words, &'static str, &'static str, u8);

/// What a call leaves.
#[derive(Clone, Copy)]
struct Left<'a> {
    text: &'a str,
    told: &'a str,
    status: u8,
}

/// What of streams and a status isn't as it should be, or nothing.
fn difference(streams: &Streams, status: u8, left: &Left<'_>) -> &'static str {
    if streams.output.bytes() != left.text.as_bytes() {
        "the output"
    } else if streams.errors.bytes() != left.told.as_bytes() {
        "what is told"
    } else if status != left.status {
        "the status"
    } else {
        ""
    }
}

/// What a call over these streams leaves otherwise, or nothing; `None` where it can't be made.
fn difference_over<R: Threads + Sync + RandomSource>(
    rt: &R,
    alloc: Global,
    words: &[&str],
    streams: &mut Streams,
    left: &Left<'_>,
) -> Option<&'static str> {
    let status = status_of(rt, alloc, words, streams, &OpenGate)?;
    Some(difference(streams, status, left))
}

/// What a call over an input leaves otherwise, or nothing.
fn difference_of<R: Threads + Sync + RandomSource>(
    rt: &R,
    alloc: Global,
    words: &[&str],
    input: &str,
    left: &Left<'_>,
) -> Option<&'static str> {
    let mut streams = streams_of(alloc, input, 1000).ok()?;
    let found = difference_over(rt, alloc, words, &mut streams, left);
    drop(streams);
    found
}

/// Asserts that each call writes its text.
pub fn assert_written<R: Abort + AllocGlobal + Threads + Sync + RandomSource>(
    rt: &R,
    rows: &[Written],
) {
    for (place, (words, input, text)) in rows.iter().enumerate() {
        let left = Left {
            text,
            told: "",
            status: 0,
        };
        let found = difference_of(rt, rt.alloc(), words, input, &left);
        assert_eq!(rt; found, Some(""), "row {place}");
    }
}

/// Asserts that each call writes its text, and tells of its refused lines.
pub fn assert_counted<R: Abort + AllocGlobal + Threads + Sync + RandomSource>(
    rt: &R,
    rows: &[Counted],
) {
    for (place, (words, input, text, told)) in rows.iter().enumerate() {
        let left = Left {
            text,
            told,
            status: 1,
        };
        let found = difference_of(rt, rt.alloc(), words, input, &left);
        assert_eq!(rt; found, Some(""), "row {place}");
    }
}

/// What a call over an input that must be refused leaves otherwise, or nothing.
pub fn refused_otherwise<R: Threads + Sync + RandomSource>(
    rt: &R,
    alloc: Global,
    words: &[&str],
    input: &str,
    told: &str,
    status: u8,
) -> Option<&'static str> {
    let left = Left {
        text: "",
        told,
        status,
    };
    difference_of(rt, alloc, words, input, &left)
}

/// Asserts that each call is refused, and writes nothing.
pub fn assert_refused<R: Abort + AllocGlobal + Threads + Sync + RandomSource>(
    rt: &R,
    rows: &[Refused],
) {
    for (place, (words, input, told, status)) in rows.iter().enumerate() {
        let found = refused_otherwise(rt, rt.alloc(), words, input, told, *status);
        assert_eq!(rt; found, Some(""), "row {place}");
    }
}

const SERIAL: Words = &["serial"];

const TEXTS: [Written; 6] = [
    (SERIAL, FIRST, FIRST_TEXT),
    (SERIAL, "attribute function string 276\n", ""),
    (SERIAL, "", ""),
    (
        SERIAL,
        "attribute a string 276\nchannel t trace\nthread\nsnapshot",
        "__rec=ctx\n",
    ),
    (SERIAL, ESCAPES, ESCAPES_TEXT),
    (SERIAL, NESTED, NESTED_TEXT),
];

fn texts() -> &'static [Written] {
    &TEXTS
}

const FAULTS: [Refused; 7] = [
    (
        SERIAL,
        "channel t trace\nbegin function main\n",
        "caliper: line 2: Misplaced\n",
        3,
    ),
    (
        SERIAL,
        "\n# a comment\nthread\nthread now\n",
        "caliper: line 4: WrongArity\n",
        3,
    ),
    (
        SERIAL,
        "attribute a string 276\nchannel t trace\nthread\nend a\nend b\n",
        "caliper: line 5: UnknownName\n",
        3,
    ),
    (&[], FIRST, "caliper: usage: word 1\n", 2),
    (&["live"], FIRST, "caliper: usage: word 1\n", 2),
    (&["--help"], FIRST, "caliper: usage: word 1\n", 2),
    (
        &["serial", "--clock=script"],
        "channel",
        "caliper: usage: word 2\n",
        2,
    ),
];

fn faults() -> &'static [Refused] {
    &FAULTS
}

#[test]
fn scripts_are_written(rt: HostRuntime) {
    assert_written(&rt, texts());
}

#[test]
fn faults_are_told(rt: HostRuntime) {
    assert_refused(&rt, faults());
}
