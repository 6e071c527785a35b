//! What is refused: words, texts of queries, and streams.

use crate::rows::{Refused, Words, assert_refused};
use crate::streams::DURATIONS;

const SLOW: Words = &["watch", "--trigger=slow"];

const USAGE: [Refused; 9] = [
    (&["watch"], "", "caliper: usage: word 2\n", 2),
    (&["watch", "--q="], DURATIONS, "caliper: usage: word 3\n", 2),
    (&[], DURATIONS, "caliper: usage: word 1\n", 2),
    (&["query"], DURATIONS, "caliper: usage: word 1\n", 2),
    (
        &["watch", "--trigger=fast"],
        DURATIONS,
        "caliper: usage: word 2\n",
        2,
    ),
    (
        &["watch", "--trigger=slow", "--globals=off"],
        DURATIONS,
        "caliper: usage: word 3\n",
        2,
    ),
    (
        &["watch", "--trigger=slow", "--trigger=slow"],
        DURATIONS,
        "caliper: usage: word 3\n",
        2,
    ),
    (
        &["watch", "--q=", "--q=", "--trigger=slow"],
        DURATIONS,
        "caliper: usage: word 3\n",
        2,
    ),
    (
        &["watch", "--q=select", "--trigger=slow", "x"],
        DURATIONS,
        "caliper: usage: word 4\n",
        2,
    ),
];

const NO_QUERIES: [Refused; 2] = [
    (
        &["watch", "--trigger=main", "--q=group path"],
        "x",
        "caliper: query: byte 6: ExpectedBy\n",
        4,
    ),
    (
        &["watch", "--q=format xml", "--trigger=slow"],
        "x",
        "caliper: query: byte 7: UnknownFormat\n",
        4,
    ),
];

const FAULTY: [Refused; 3] = [
    (SLOW, "x", "caliper: line 1: BadField\n", 3),
    (
        SLOW,
        "__rec=ctx\n\n__rec=ctx,ref=12\n",
        "caliper: line 3: UnknownNode\n",
        3,
    ),
    (
        &["watch", "--trigger=main", "--q=select count()"],
        "__rec=ctx,ref=12",
        "caliper: line 1: UnknownNode\n",
        3,
    ),
];

fn usage() -> &'static [Refused] {
    &USAGE
}

fn no_queries() -> &'static [Refused] {
    &NO_QUERIES
}

fn faulty() -> &'static [Refused] {
    &FAULTY
}

#[test]
fn words_that_break_the_rule_are_told(rt: HostRuntime) {
    assert_refused(&rt, usage());
}

#[test]
fn texts_that_are_no_query_are_told(rt: HostRuntime) {
    assert_refused(&rt, no_queries());
}

#[test]
fn faults_of_streams_are_told(rt: HostRuntime) {
    assert_refused(&rt, faulty());
}
