//! Tables.

use crate::answers::{Case, Layout, Row, Value, check};

const PATHS: [Row<'_>; 3] = [
    (
        &[&[("function", 276, Value::Text("main"))]],
        &[("count", 65, Value::Int(2))],
    ),
    (
        &[&[
            ("function", 276, Value::Text("main")),
            ("function", 276, Value::Text("b")),
        ]],
        &[("count", 65, Value::Int(1))],
    ),
    (
        &[&[
            ("function", 276, Value::Text("main")),
            ("loop", 276, Value::Text("a")),
        ]],
        &[("count", 65, Value::Int(1))],
    ),
];

// negative numbers, a space at a text's end, two values of one name, a decimal, nothing
const MIXED: [Row<'_>; 3] = [
    (
        &[&[("t", 0, Value::Text("a b "))]],
        &[
            ("n", 65, Value::Int(-5)),
            ("m", 65, Value::Int(1)),
            ("m", 65, Value::Uint(2)),
        ],
    ),
    (
        &[],
        &[
            ("n", 65, Value::Uint(12)),
            ("x", 65, Value::Fixed(250_000_000)),
        ],
    ),
    (&[], &[]),
];

const LEVELS: [Row<'_>; 2] = [
    (
        &[&[("level", 256, Value::Int(3))]],
        &[("n", 65, Value::Int(7))],
    ),
    (
        &[&[("level", 256, Value::Int(10))]],
        &[("n", 65, Value::Text("two\nlines "))],
    ),
];

const CASES: [Case<'_>; 7] = [
    (
        &PATHS,
        &[("path", "path"), ("count", "count")],
        false,
        "path   count\nmain       2\nmain/b     1\nmain/a     1\n",
    ),
    (&[], &[("sum#x", "sum#x")], false, "sum#x\n"),
    (&[], &[], false, ""),
    (&MIXED, &[], false, ""),
    (
        &MIXED,
        &[
            ("n", "n"),
            ("t", "t"),
            ("n", "n"),
            ("é\n", "m"),
            ("日本", "x"),
        ],
        false,
        " n t     n é\\n   日本\n-5 a b  -5 1/2\n12      12     0.25\n\n",
    ),
    (
        &LEVELS,
        &[("path", "path"), ("number", "n")],
        false,
        "path number\n   3 7\n  10 two\\nlines\n",
    ),
    (
        &LEVELS,
        &[("", "none"), ("h ", "function")],
        false,
        " h\n\n\n",
    ),
];

#[test]
fn each_answer_has_its_table(rt: HostRuntime) {
    check(&rt, rt.alloc(), Layout::Table, &CASES);
}
