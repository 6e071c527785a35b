//! Rows: calls with their words over an input, and what they leave.

use crate::calls::{Streams, status_of, streams_of};
use std::alloc::Global;
use std::process::Abort;

pub type Words = &'static [&'static str];

/// The words and the input of a call, and the text that it writes.
pub type Written = (Words, &'static str, &'static str);

/// The words and the input of a call that is refused, what it tells, and its status.
pub type Refused = (Words, &'static str, &'static str, u8);

/// What a call leaves.
#[derive(Clone, Copy)]
struct Left<'a> {
    text: &'a str,
    told: &'a str,
    status: u8,
}

/// What of streams and a status isn't as it should be, or nothing.
fn difference(streams: &Streams, status: u8, left: &Left<'_>) -> &'static str {
    if streams.output.bytes() != left.text.as_bytes() {
        "the output"
    } else if streams.errors.bytes() != left.told.as_bytes() {
        "what is told"
    } else if status != left.status {
        "the status"
    } else {
        ""
    }
}

/// What a call over these streams leaves otherwise, or nothing; `None` where it can't be made.
fn difference_over(
    alloc: Global,
    words: &[&str],
    streams: &mut Streams,
    left: &Left<'_>,
) -> Option<&'static str> {
    let status = status_of(alloc, words, streams)?;
    Some(difference(streams, status, left))
}

/// What a call over an input leaves otherwise, or nothing.
fn difference_of(
    alloc: Global,
    words: &[&str],
    input: &str,
    left: &Left<'_>,
) -> Option<&'static str> {
    let mut streams = streams_of(alloc, input, &[], 1000).ok()?;
    let found = difference_over(alloc, words, &mut streams, left);
    drop(streams);
    found
}

/// Asserts that each call writes its text.
pub fn assert_written<R: Abort + AllocGlobal>(rt: &R, rows: &[Written]) {
    for (place, (words, input, text)) in rows.iter().enumerate() {
        let left = Left {
            text,
            told: "",
            status: 0,
        };
        let found = difference_of(rt.alloc(), words, input, &left);
        assert_eq!(rt; found, Some(""), "row {place}");
    }
}

/// Asserts that each call is refused, and writes nothing.
pub fn assert_refused<R: Abort + AllocGlobal>(rt: &R, rows: &[Refused]) {
    for (place, (words, input, told, status)) in rows.iter().enumerate() {
        let left = Left {
            text: "",
            told,
            status: *status,
        };
        let found = difference_of(rt.alloc(), words, input, &left);
        assert_eq!(rt; found, Some(""), "row {place}");
    }
}
