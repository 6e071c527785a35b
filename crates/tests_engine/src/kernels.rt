//! Kernels.

use crate::texts::{Case, Row, check};

const NUMBERS: [Row; 4] = [
    (&["main"], &[("x", "-5"), ("count", "3")]),
    (&["main", "a"], &[("x", "2")]),
    (&["main", "a", "b"], &[("x", "1"), ("sum#x", "10")]),
    (&["other"], &[("y", "0.5")]),
];

const SUMS: [Case; 4] = [
    (
        "aggregate sum(x) group by path",
        "/main sum#x=-5;/main/a sum#x=2;/main/a/b sum#x=11;/other;",
        " path sum#x",
    ),
    (
        "aggregate count() group by path",
        "/main count=3;/main/a count=1;/main/a/b count=1;/other count=1;",
        " path count",
    ),
    // -2 / 3 and 100 * -5 / 8 are rounded towards 0
    ("aggregate avg(x) group by z", " avg#x=0;", " z avg#x"),
    (
        "aggregate percent_total(x) as p group by path",
        "/main p=-62;/main/a p=25;/main/a/b p=137;/other;",
        " path p",
    ),
];

const ENDS: [Case; 3] = [
    // LET first: -10, 4 and 2, and the last record's own 0.5
    (
        "let y=scale(x,2) aggregate sum(y) group by z",
        " sum#y=-3.5;",
        " z sum#y",
    ),
    (
        "aggregate min(x),max(x) as top group by z",
        " min#x=-5 top=2;",
        " z min#x top",
    ),
    (
        "aggregate inclusive_sum(x) group by path",
        "/main inclusive#x=8;/main/a inclusive#x=13;/main/a/b inclusive#x=11;/other;",
        " path inclusive#x",
    ),
];

const DECIMALS: [Row; 3] = [
    (&[], &[("x", "2")]),
    (&[], &[("x", "0.5")]),
    (&[], &[("x", "word")]),
];

const FIXED: [Case; 3] = [
    ("aggregate sum(x) group by z", " sum#x=2.5;", " z sum#x"),
    (
        "aggregate avg(x),min(x) group by z",
        " avg#x=1.25 min#x=0.5;",
        " z avg#x min#x",
    ),
    ("aggregate max(y) group by z", ";", " z max#y"),
];

#[test]
fn sums_counts_and_what_is_made_of_them(rt: HostRuntime) {
    check(&rt, rt.alloc(), &NUMBERS, &SUMS);
}

#[test]
fn ends_and_sums_of_groups_below(rt: HostRuntime) {
    check(&rt, rt.alloc(), &NUMBERS, &ENDS);
}

#[test]
fn a_decimal_makes_a_result_fixed(rt: HostRuntime) {
    check(&rt, rt.alloc(), &DECIMALS, &FIXED);
}

const TO_NOTHING: [Row; 2] = [(&["a"], &[("x", "1")]), (&["b"], &[("x", "-1")])];

const PERCENTAGE: [Case; 1] = [(
    "aggregate percent_total(x) group by path",
    "/a;/b;",
    " path percent_total#x",
)];

#[test]
fn a_percentage_of_nothing_is_absent(rt: HostRuntime) {
    check(&rt, rt.alloc(), &TO_NOTHING, &PERCENTAGE);
}
