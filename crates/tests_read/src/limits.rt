//! Ints at the greatest magnitude that is read, 2^86, and one past it.

use crate::shown::{all_hold, wrong_fault, wrong_row};
use cal_read::StreamKind;

// an attribute `n` of kind int (id 13), and one whose entries stand in paths (id 15)
const HEAD: &str = "\
__rec=node,id=12,attr=10,data=65,parent=1
__rec=node,id=13,attr=8,data=n,parent=12
__rec=node,id=14,attr=10,data=276,parent=1
__rec=node,id=15,attr=8,data=p,parent=14
__rec=node,id=16,attr=15,data=7
__rec=";

/// Lines with such a number, in the form that most streams have and in another one, and what they
/// say.
const READ: [(&str, &str); 7] = [
    (
        "ctx,attr=13,data=77371252455336267181195264",
        "n=77371252455336267181195264,;;",
    ),
    (
        "ctx,data=\\77371252455336267181195264,attr=13",
        "n=77371252455336267181195264,;;",
    ),
    (
        "ctx,attr=13,data=-77371252455336267181195264",
        "n=-77371252455336267181195264,;;",
    ),
    (
        "ctx,attr=13,data=000000000000000077371252455336267181195264",
        "n=77371252455336267181195264,;;",
    ),
    (
        "ctx,ref=16,attr=13=13,data=77371252455336267181195264=1",
        "p=7,|n=77371252455336267181195264,n=1,;;",
    ),
    (
        "node,id=17,attr=15,data=77371252455336267181195264,parent=16\n__rec=ctx,ref=17",
        "p=7,p=77371252455336267181195264,|;;",
    ),
    (
        "globals,attr=13,data=-77371252455336267181195264",
        "n=-77371252455336267181195264,;",
    ),
];

/// Lines with a number that is one more, which are refused.
const REFUSED: [(&str, StreamKind); 7] = [
    (
        "ctx,attr=13,data=77371252455336267181195265",
        StreamKind::BadValue,
    ),
    (
        "ctx,data=\\77371252455336267181195265,attr=13",
        StreamKind::BadValue,
    ),
    (
        "ctx,attr=13,data=-77371252455336267181195265",
        StreamKind::BadValue,
    ),
    (
        "ctx,attr=13,data=000000000000000077371252455336267181195265",
        StreamKind::BadValue,
    ),
    (
        "ctx,ref=16,attr=13=13,data=1=77371252455336267181195265",
        StreamKind::BadValue,
    ),
    (
        "node,id=17,attr=15,data=77371252455336267181195265,parent=16",
        StreamKind::BadValue,
    ),
    (
        "globals,attr=13,data=-77371252455336267181195265",
        StreamKind::BadValue,
    ),
];

fn read() -> &'static [(&'static str, &'static str)] {
    &READ
}

fn refused() -> &'static [(&'static str, StreamKind)] {
    &REFUSED
}

#[test]
fn an_int_has_a_magnitude_of_at_most_2_to_86(rt: HostRuntime) {
    all_hold(&rt, wrong_row(rt.alloc(), HEAD, read(), "\n"));
    all_hold(&rt, wrong_fault(rt.alloc(), HEAD, refused()));
}
