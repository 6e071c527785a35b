//! JSON.

use crate::answers::{Case, Layout, Row, Value, check};

const ROWS: [Row<'_>; 5] = [
    (
        &[&[
            ("function", 276, Value::Text("main")),
            ("function", 276, Value::Text("solve")),
        ]],
        &[("low", 65, Value::Int(-9_223_372_036_854_775_808))],
    ),
    (
        &[],
        &[
            ("low", 65, Value::Int(-9_223_372_036_854_775_809)),
            ("high", 65, Value::Uint(18_446_744_073_709_551_615)),
        ],
    ),
    (
        &[],
        &[
            ("low", 65, Value::Int(0)),
            ("high", 65, Value::Int(18_446_744_073_709_551_616)),
            ("x", 65, Value::Fixed(250_000_000)),
        ],
    ),
    (
        &[&[("x", 0, Value::Text("q\"\\\n\u{1}é"))]],
        &[("high", 65, Value::Int(1)), ("high", 65, Value::Int(2))],
    ),
    (&[], &[]),
];

const COLUMNS: [(&str, &str); 6] = [
    ("é", "low"),
    ("b", "high"),
    ("a", "path"),
    ("one", "low"),
    ("one", "x"),
    ("B", "none"),
];

const EXPECTED: &str = concat!(
    "[{\"a\":\"main/solve\",\"one\":-9223372036854775808,\"é\":-9223372036854775808},",
    "{\"b\":18446744073709551615,\"one\":\"-9223372036854775809\",",
    "\"é\":\"-9223372036854775809\"},",
    "{\"b\":\"18446744073709551616\",\"one\":\"0.25\",\"é\":0},",
    "{\"b\":\"1/2\",\"one\":\"q\\\"\\\\\\n\\u0001é\"},",
    "{}]\n"
);

const ESCAPED: [Row<'_>; 1] = [(&[&[("function", 276, Value::Text("a,b=c\\d\ne"))]], &[])];

const CASES: [Case<'_>; 3] = [
    (&ROWS, &COLUMNS, false, EXPECTED),
    (&[], &COLUMNS, true, "[]\n"),
    (
        &ESCAPED,
        &[("path", "path")],
        true,
        "[{\"path\":\"a,b=c\\\\d\\ne\"}]\n",
    ),
];

#[test]
fn each_answer_is_an_array_of_objects(rt: HostRuntime) {
    check(&rt, rt.alloc(), Layout::Json, &CASES);
}
