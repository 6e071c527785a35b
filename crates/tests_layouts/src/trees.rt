//! Trees.

use crate::answers::{Case, Layout, Row, Value, check};

// the times of a profile: one without a hierarchy, and one at each node
const PROFILE: [Row<'_>; 4] = [
    (&[], &[("t", 65, Value::Int(0)), ("i", 65, Value::Int(288))]),
    (
        &[&[("function", 276, Value::Text("main"))]],
        &[("t", 65, Value::Int(48)), ("i", 65, Value::Int(288))],
    ),
    (
        &[&[
            ("function", 276, Value::Text("main")),
            ("loop", 276, Value::Text("steps")),
        ]],
        &[("t", 65, Value::Int(40)), ("i", 65, Value::Int(240))],
    ),
    (
        &[&[
            ("function", 276, Value::Text("main")),
            ("loop", 276, Value::Text("steps")),
            ("function", 276, Value::Text("solve")),
        ]],
        &[("t", 65, Value::Int(200)), ("i", 65, Value::Int(200))],
    ),
];

// a row without a hierarchy, one at an inner node that comes twice, children without a row of their
// own node, and equal texts of two attributes
const NODES: [Row<'_>; 6] = [
    (
        &[&[
            ("function", 276, Value::Text("main")),
            ("loop", 276, Value::Text("b")),
        ]],
        &[("t", 65, Value::Int(1))],
    ),
    (&[], &[("t", 65, Value::Int(-22))]),
    (
        &[&[("function", 276, Value::Text("main"))]],
        &[("t", 65, Value::Int(3))],
    ),
    (
        &[&[
            ("function", 276, Value::Text("main")),
            ("function", 276, Value::Text("b")),
        ]],
        &[],
    ),
    (
        &[&[("function", 276, Value::Text("main"))]],
        &[("u", 65, Value::Text("a\nb "))],
    ),
    (
        &[
            &[("x", 0, Value::Int(9)), ("phase", 256, Value::Text("é"))],
            &[("level", 256, Value::Int(4)), ("level", 256, Value::Int(5))],
        ],
        &[("t", 65, Value::Int(6))],
    ),
];

const CASES: [Case<'_>; 4] = [
    (
        &PROFILE,
        &[("path", "path"), ("t", "t"), ("i", "i")],
        true,
        "Path        t   i\n            0 288\nmain       48 288\n  steps    40 240\n    \
         solve 200 200\n",
    ),
    (
        &[],
        &[("path", "path"), ("t\n", "t"), ("u", "u")],
        true,
        "Path t\\n u\n",
    ),
    (
        &NODES,
        &[
            ("path", "path"),
            ("f", "function"),
            ("time", "t"),
            ("x", "x"),
            ("level", "level"),
            ("u", "u"),
        ],
        true,
        "Path  time x     u\n       -22\nmain     3\nmain         a\\nb\n  b      1\n  b\n\
         é\n  4\n    5    6 9\n",
    ),
    (
        &NODES,
        &[],
        true,
        "Path\n\nmain\nmain\n  b\n  b\né\n  4\n    5\n",
    ),
];

#[test]
fn each_answer_has_its_tree(rt: HostRuntime) {
    check(&rt, rt.alloc(), Layout::Tree, &CASES);
}
