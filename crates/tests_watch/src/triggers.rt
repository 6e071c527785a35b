//! What both triggers let through.

use crate::rows::{Words, Written, assert_written};
use crate::streams::{DURATIONS, MIXED, PATHS};

const MAIN: Words = &["watch", "--trigger=main"];

const SLOW: Words = &["watch", "--trigger=slow"];

const COUNT: &str = "--q=select path,count() group by path";

const ROWS: [Written; 5] = [
    (
        &["watch", "--trigger=main", COUNT],
        PATHS,
        "path=main/b,count=1\npath=main/a,count=2\npath=main,count=2\n",
    ),
    (SLOW, DURATIONS, "time.duration.ns=1000\n"),
    (SLOW, PATHS, ""),
    (MAIN, DURATIONS, ""),
    (MAIN, "", ""),
];

const MIXED_ROWS: [Written; 2] = [
    (
        MAIN,
        MIXED,
        "function=main,time.duration.ns=1\nfunction=solve/main,time.duration.ns=2\n",
    ),
    (
        SLOW,
        MIXED,
        "function=solve,time.duration.ns=1000\ntime.duration.ns=1001/3\ntime.duration.ns=999\n\
         time.duration.ns=5000/4,function=solve\n",
    ),
];

/// The trigger doesn't see what LET adds, and WHERE asks of what it lets through.
const WITH_LETS: [Written; 3] = [
    (
        &[
            "watch",
            "--q=let time.duration.ns=scale(time.duration.ns,1000) select time.duration.ns",
            "--trigger=slow",
        ],
        DURATIONS,
        "time.duration.ns=1000/1000000\n",
    ),
    (
        &[
            "watch",
            "--trigger=main",
            "--q=let ns=scale(time.duration.ns,2) select function,ns where ns > 2",
        ],
        MIXED,
        "function=solve/main,ns=4\n",
    ),
    (
        &[
            "watch",
            "--trigger=slow",
            "--q=let us=truncate(time.duration.ns,1000) select us,count() group by us format table",
        ],
        MIXED,
        "  us count\n1000     1\n   0     2\n         1\n",
    ),
];

fn rows() -> &'static [Written] {
    &ROWS
}

fn mixed_rows() -> &'static [Written] {
    &MIXED_ROWS
}

fn with_lets() -> &'static [Written] {
    &WITH_LETS
}

#[test]
fn rows_are_let_through(rt: HostRuntime) {
    assert_written(&rt, rows());
}

#[test]
fn names_are_found_wherever_they_stand(rt: HostRuntime) {
    assert_written(&rt, mixed_rows());
}

#[test]
fn triggers_are_asked_before_let(rt: HostRuntime) {
    assert_written(&rt, with_lets());
}
