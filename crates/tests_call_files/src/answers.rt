//! What is written of many files.

use crate::many::{Row, assert_rows};

const COUNTS: &str = "--q=select path,count() group by path";

const TABLE: &str = "--q=select path,count() where not region group by path \
order by count desc format table";

static WORKED: [Row; 2] = [
    (
        &["files", "--in=one", "--in=two", COUNTS],
        "path=main,count=2\n",
        "",
        0,
    ),
    (
        &["files", "--in=begun", "--in=ended", TABLE],
        "path   count\nmain       2\nmain/b     1\nmain/a     1\n",
        "",
        0,
    ),
];

static OTHERS: [Row; 8] = [
    (
        &["files", "--in=one", "--in=one", "--in=one", COUNTS],
        "path=main,count=3\n",
        "",
        0,
    ),
    (
        &["files", COUNTS, "--in=one", "--in=none", "--in=two"],
        "path=main,count=2\n",
        "",
        0,
    ),
    (&["files", "--in=none"], "", "", 0),
    (&["files", "--in=none", "--in=none", COUNTS], "", "", 0),
    (
        &["files", "--in=other", "--in=one", COUNTS],
        "path=other,count=1\npath=main,count=1\n",
        "",
        0,
    ),
    (
        &["files", "--in=one", "--in=other", COUNTS],
        "path=main,count=1\npath=other,count=1\n",
        "",
        0,
    ),
    (
        &["files", "--in=other", "--in=one", "--in=other"],
        "function=other\nfunction=main\nfunction=other\n",
        "",
        0,
    ),
    (&["files", "--in=one", "--q="], "function=main\n", "", 0),
];

fn worked() -> &'static [Row] {
    &WORKED
}

fn others() -> &'static [Row] {
    &OTHERS
}

#[test]
fn worked_rows_are_written(rt: HostRuntime) {
    assert_rows(&rt, worked());
}

#[test]
fn files_are_folded_in_their_order(rt: HostRuntime) {
    assert_rows(&rt, others());
}
