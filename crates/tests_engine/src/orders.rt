//! The order of rows.

use crate::texts::{Case, Row, check};

const ROWS: [Row; 5] = [
    (&[], &[("n", "2"), ("m", "a")]),
    (&[], &[("n", "1"), ("m", "b")]),
    (&[], &[("m", "c")]),
    (&[], &[("n", "2"), ("m", "d")]),
    (&[], &[("n", "0.5"), ("m", "b")]),
];

const CASES: [Case; 4] = [
    // an absent value comes first, and ties stay in their order
    (
        "order by n",
        " m=c; n=0.5 m=b; n=1 m=b; n=2 m=a; n=2 m=d;",
        " m n",
    ),
    (
        "order by n desc",
        " n=2 m=a; n=2 m=d; n=1 m=b; n=0.5 m=b; m=c;",
        " n m",
    ),
    (
        "order by m desc,n",
        " n=2 m=d; m=c; n=0.5 m=b; n=1 m=b; n=2 m=a;",
        " n m",
    ),
    (
        "aggregate count() group by m order by count desc",
        " m=b count=2; m=a count=1; m=c count=1; m=d count=1;",
        " m count",
    ),
];

#[test]
fn rows_are_sorted_stably(rt: HostRuntime) {
    check(&rt, rt.alloc(), &ROWS, &CASES);
}
