//! Plain lines.

use crate::answers::{Case, Layout, Row, Value, check};

const ANSWER: [Row<'_>; 3] = [
    (
        &[&[
            ("function", 276, Value::Text("main")),
            ("function", 276, Value::Text("solve")),
        ]],
        &[("count", 65, Value::Int(2))],
    ),
    (&[], &[("x", 65, Value::Fixed(250_000_000))]),
    (
        &[&[("x", 0, Value::Text("a,b"))]],
        &[("x", 65, Value::Uint(7))],
    ),
];

const COLUMNS: [(&str, &str); 5] = [
    ("f", "function"),
    ("path", "path"),
    ("n", "count"),
    ("n", "x"),
    ("f", "function"),
];

const CASES: [Case<'_>; 4] = [
    (
        &ANSWER,
        &COLUMNS,
        true,
        "function=main/solve,count=2\nx=0.25\nx=a\\,b/7\n",
    ),
    (
        &ANSWER,
        &COLUMNS,
        false,
        "f=main/solve,path=main/solve,n=2,f=main/solve\nn=0.25\nn=a\\,b/7\n",
    ),
    (&[], &COLUMNS, false, ""),
    (&ANSWER, &[], false, "\n\n\n"),
];

#[test]
fn each_answer_has_its_lines(rt: HostRuntime) {
    check(&rt, rt.alloc(), Layout::Lines, &CASES);
}
