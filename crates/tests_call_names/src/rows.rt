//! Rows: calls with their words over an input, and what they leave.

use crate::calls::{Streams, status_of, streams_of};
use std::process::Abort;
use std::thread::Threads;

pub type Words = &'static [&'static str];

/// An input, the text that `names` writes, and what it tells: nothing, or how many were refused.
pub type Listed = (&'static str, &'static str, &'static str);

/// The words and the input of a call that is refused, what it tells, and its status.
pub type Refused = (Words, &'static str, &'static str, u8);

/// What a call leaves.
#[derive(Clone, Copy)]
pub struct Left<'a> {
    pub text: &'a str,
    pub told: &'a str,
    pub status: u8,
}

/// What of streams and a status isn't as it should be, or nothing.
fn difference(streams: &Streams, status: u8, left: &Left<'_>) -> &'static str {
    if streams.output.bytes() != left.text.as_bytes() {
        "the output"
    } else if streams.errors.bytes() != left.told.as_bytes() {
        "what is told"
    } else if status != left.status {
        "the status"
    } else {
        ""
    }
}

/// What a call over an input leaves otherwise, or nothing; `None` where it can't be made.
pub fn difference_of<R: Threads + Sync + AllocGlobal>(
    rt: &R,
    words: &[&str],
    input: &str,
    left: &Left<'_>,
) -> Option<&'static str> {
    let mut streams = streams_of(rt.alloc(), input, &[], 10_000).ok()?;
    let found = match status_of(rt, words, &mut streams) {
        Some(status) => Some(difference(&streams, status, left)),
        None => None,
    };
    drop(streams);
    found
}

/// Asserts that each input is listed so, with status 0 where nothing is told, and else 1.
pub fn assert_listed<R: Threads + Sync + Abort + AllocGlobal>(rt: &R, rows: &[Listed]) {
    for (place, (input, text, told)) in rows.iter().enumerate() {
        let status = if told.is_empty() { 0 } else { 1 };
        let left = Left { text, told, status };
        let found = difference_of(rt, &["names"], input, &left);
        assert_eq!(rt; found, Some(""), "row {place}");
    }
}

/// Asserts that each call is refused, and writes nothing.
pub fn assert_refused<R: Threads + Sync + Abort + AllocGlobal>(rt: &R, rows: &[Refused]) {
    for (place, (words, input, told, status)) in rows.iter().enumerate() {
        let left = Left {
            text: "",
            told,
            status: *status,
        };
        let found = difference_of(rt, words, input, &left);
        assert_eq!(rt; found, Some(""), "row {place}");
    }
}
