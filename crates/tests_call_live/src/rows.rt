//! Rows: calls of `live` with their words over an input, and what they leave.

use crate::calls::{Failing, NONE, Streams, status_of, streams_of};
use std::alloc::Global;
use std::process::Abort;
use std::random::RandomSource;
use std::sync::Wait;
use std::thread::Threads;

pub type Words = &'static [&'static str];

/// The words and the input of a call, what it writes, what it tells, and its status.
pub type Row = (Words, &'static str, &'static str, &'static str, u8);

/// What a call leaves.
#[derive(Clone, Copy)]
pub struct Left<'a> {
    pub text: &'a str,
    pub told: &'a str,
    pub status: u8,
}

/// What of streams and a status isn't as it should be, or nothing.
fn difference(streams: &Streams, status: u8, left: &Left<'_>) -> &'static str {
    if streams.output.bytes() != left.text.as_bytes() {
        "the output"
    } else if streams.errors.bytes() != left.told.as_bytes() {
        "what is told"
    } else if status != left.status {
        "the status"
    } else {
        ""
    }
}

/// What a call over these streams leaves otherwise, or nothing; `None` where it can't be made.
fn difference_over<R: Threads + Wait + Sync + RandomSource>(
    rt: &R,
    alloc: Global,
    words: &[&str],
    streams: &mut Streams,
    left: &Left<'_>,
) -> Option<&'static str> {
    let status = status_of(rt, alloc, words, streams)?;
    Some(difference(streams, status, left))
}

/// What a call over an input leaves otherwise, or nothing.
pub fn difference_of<R: Threads + Wait + Sync + RandomSource>(
    rt: &R,
    alloc: Global,
    words: &[&str],
    input: &str,
    failing: Failing,
    left: &Left<'_>,
) -> Option<&'static str> {
    let mut streams = streams_of(alloc, input, failing).ok()?;
    let found = difference_over(rt, alloc, words, &mut streams, left);
    drop(streams);
    found
}

/// Asserts that each call leaves what its row says, where these reads and writes fail.
pub fn assert_rows_by<R: Abort + AllocGlobal + Threads + Wait + Sync + RandomSource>(
    rt: &R,
    failing: Failing,
    rows: &[Row],
) {
    for (place, (words, input, text, told, status)) in rows.iter().enumerate() {
        let left = Left {
            text,
            told,
            status: *status,
        };
        let found = difference_of(rt, rt.alloc(), words, input, failing, &left);
        assert_eq!(rt; found, Some(""), "row {place}");
    }
}

/// Asserts that each call leaves what its row says.
pub fn assert_rows<R: Abort + AllocGlobal + Threads + Wait + Sync + RandomSource>(
    rt: &R,
    rows: &[Row],
) {
    assert_rows_by(rt, NONE, rows);
}
