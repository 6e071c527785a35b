//! Groups and their rows.

use crate::texts::{Case, Row, check};

const ROWS: [Row; 5] = [
    (&["main", "a"], &[("n", "1")]),
    (&["main", "b"], &[("n", "2")]),
    (&["main", "a"], &[("n", "1"), ("m", "x")]),
    (&[], &[("n", "1")]),
    (&["main"], &[("m", "x"), ("n", "2")]),
];

const BY_PATH: [Case; 3] = [
    (
        "select path,count() group by path",
        "/main/a count=2;/main/b count=1; count=1;/main count=1;",
        " path count",
    ),
    (
        "aggregate count() where not m group by path",
        "/main/a count=1;/main/b count=1; count=1;",
        " path count",
    ),
    (
        "aggregate count() group by region",
        "/main/a count=2;/main/b count=1; count=1;/main count=1;",
        " region count",
    ),
];

const BY_VALUES: [Case; 4] = [
    (
        "aggregate count() group by n",
        " n=1 count=3; n=2 count=2;",
        " n count",
    ),
    ("group by m,n", " n=1; n=2; m=x n=1; m=x n=2;", " m n"),
    // a name takes nothing a second time, but its column stands there twice
    ("group by m,m", "; m=x;", " m m"),
    // without GROUP BY the groups are those of the lists of paths
    (
        "aggregate count()",
        "/main/a count=2;/main/b count=1; count=1;/main count=1;",
        " path count",
    ),
];

const PLAIN: [Case; 3] = [
    ("where m", "/main/a n=1 m=x;/main m=x n=2;", " path n m"),
    (
        "select m as y,m where n=1",
        "/main/a n=1;/main/a n=1 m=x; n=1;",
        " y m",
    ),
    ("where absent", "", ""),
];

#[test]
fn groups_by_path_stand_in_first_seen_order(rt: HostRuntime) {
    check(&rt, rt.alloc(), &ROWS, &BY_PATH);
}

#[test]
fn groups_take_the_entries_of_names(rt: HostRuntime) {
    check(&rt, rt.alloc(), &ROWS, &BY_VALUES);
}

#[test]
fn other_queries_keep_records(rt: HostRuntime) {
    check(&rt, rt.alloc(), &ROWS, &PLAIN);
}

const TWO_KINDS: [Row; 2] = [(&[], &[("n", "1")]), (&[], &[("n", "1.0")])];

const BY_KIND: [Case; 1] = [(
    "aggregate count() group by n",
    " n=1 count=1; n=1 count=1;",
    " n count",
)];

#[test]
fn values_of_one_text_and_two_kinds_are_two_groups(rt: HostRuntime) {
    check(&rt, rt.alloc(), &TWO_KINDS, &BY_KIND);
}
