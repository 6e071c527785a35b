//! What is refused: words, texts of queries, files, and which of several faults is told.

use crate::many::{Row, assert_rows, assert_rows_by};

static USAGE: [Row; 9] = [
    (&[], "", "caliper: usage: word 1\n", 2),
    (&["query"], "", "caliper: usage: word 1\n", 2),
    (&["files"], "", "caliper: usage: word 2\n", 2),
    (&["files", "--q="], "", "caliper: usage: word 3\n", 2),
    (&["files", "one"], "", "caliper: usage: word 2\n", 2),
    (
        &["files", "--in=one", "--q=", "--q="],
        "",
        "caliper: usage: word 4\n",
        2,
    ),
    (
        &["files", "--in=one", "--globals=off"],
        "",
        "caliper: usage: word 3\n",
        2,
    ),
    (&["files", "--in"], "", "caliper: usage: word 2\n", 2),
    (&["files", "--q=x", "y"], "", "caliper: usage: word 3\n", 2),
];

static FAULTY: [Row; 7] = [
    (
        &["files", "--in=one", "--in=bad"],
        "",
        "caliper: file 2: line 1: UnknownNode\n",
        3,
    ),
    (
        &["files", "--in=absent"],
        "",
        "caliper: file 1: cannot open\n",
        9,
    ),
    (
        &["files", "--in=bad", "--in=one", "--in=absent"],
        "",
        "caliper: file 3: cannot open\n",
        9,
    ),
    (
        &["files", "--in=faulty", "--in=bad"],
        "",
        "caliper: file 1: line 3: UnknownNode\n",
        3,
    ),
    (
        &[
            "files",
            "--in=one",
            "--in=none",
            "--in=faulty",
            "--q=select path format tree",
        ],
        "",
        "caliper: file 3: line 3: UnknownNode\n",
        3,
    ),
    (
        &["files", "--in=absent", "--q=select 'a'"],
        "",
        "caliper: query: byte 7: BadToken\n",
        4,
    ),
    (&["files", "--in=", "--in=none"], "function=main\n", "", 0),
];

/// The second opening fails, and the third read, which is the first of the second file that opens.
static FAILING: [Row; 2] = [
    (
        &["files", "--in=bad", "--in=one"],
        "",
        "caliper: file 2: cannot open\n",
        9,
    ),
    (
        &["files", "--in=bad"],
        "",
        "caliper: file 1: line 1: UnknownNode\n",
        3,
    ),
];

/// The third read fails: of files with text the first of the second one.
static UNREAD: [Row; 2] = [
    (
        &["files", "--in=bad", "--in=one"],
        "",
        "caliper: file 2: read failed\n",
        5,
    ),
    (
        &["files", "--in=one", "--in=two", "--in=absent"],
        "",
        "caliper: file 2: read failed\n",
        5,
    ),
];

fn usage() -> &'static [Row] {
    &USAGE
}

fn faulty() -> &'static [Row] {
    &FAULTY
}

fn failing() -> &'static [Row] {
    &FAILING
}

fn unread() -> &'static [Row] {
    &UNREAD
}

#[test]
fn words_that_break_the_rule_are_told(rt: HostRuntime) {
    assert_rows(&rt, usage());
}

#[test]
fn the_first_fault_is_told(rt: HostRuntime) {
    assert_rows(&rt, faulty());
}

#[test]
fn openings_that_fail_are_told(rt: HostRuntime) {
    assert_rows_by(&rt, &[2], &[], failing());
}

#[test]
fn reads_that_fail_are_told(rt: HostRuntime) {
    assert_rows_by(&rt, &[], &[3], unread());
}
