//! Lines in the form that most streams have.

use crate::shown::{all_hold, wrong_fault, wrong_row};
use cal_read::StreamKind;

const HEAD: &str = "\
__rec=node,id=12,attr=10,data=65,parent=1
__rec=node,id=13,attr=8,data=n,parent=12
__rec=node,id=14,attr=8,data=f,parent=3
__rec=node,id=15,attr=14,data=main
__rec=node,id=16,attr=14,data=a b,parent=15
__rec=";

/// Lines of the form that most streams have, each before one that says the same in another way; and
/// what they say behind the lines above.
const LINES: [(&str, &str); 12] = [
    ("ctx,ref=16,attr=13,data=5", "f=main,f=a b,|n=5,;;"),
    ("ctx,data=5,attr=13,ref=16", "f=main,f=a b,|n=5,;;"),
    ("ctx,attr=13,data=5", "n=5,;;"),
    ("ctx,attr=\\13,data=5", "n=5,;;"),
    (
        "ctx,ref=16=15,attr=14,data=x",
        "f=main,f=a b,|f=main,|f=x,;;",
    ),
    (
        "ctx,ref=16=15,attr=14,data=\\x",
        "f=main,f=a b,|f=main,|f=x,;;",
    ),
    ("ctx,attr=13=14=13,data=1=x=-7", "n=1,f=x,n=-7,;;"),
    ("ctx,attr=13=14=13,data=1=x=\\-7", "n=1,f=x,n=-7,;;"),
    ("ctx,attr=0000000000000000000013,data=-0", "n=0,;;"),
    ("ctx,attr=\\0000000000000000000013,data=-0", "n=0,;;"),
    (
        "ctx,attr=13,data=-18446744073709551617",
        "n=-18446744073709551617,;;",
    ),
    (
        "ctx,attr=13,data=\\-18446744073709551617",
        "n=-18446744073709551617,;;",
    ),
];

/// The same, with their faults.
const FAULTS: [(&str, StreamKind); 12] = [
    ("ctx,attr=13,data=", StreamKind::BadValue),
    ("ctx,data=,attr=13", StreamKind::BadValue),
    ("ctx,attr=13,data=x", StreamKind::BadValue),
    ("ctx,data=x,attr=13", StreamKind::BadValue),
    ("ctx,attr=13=13,data=5", StreamKind::Uneven),
    ("ctx,data=5,attr=13=13", StreamKind::Uneven),
    ("ctx,attr=17,data=5", StreamKind::UnknownNode),
    ("ctx,data=5,attr=17", StreamKind::UnknownNode),
    ("ctx,attr=15,data=5", StreamKind::NotAttribute),
    ("ctx,data=5,attr=15", StreamKind::NotAttribute),
    ("node,id=16,attr=14,data=c,parent=15", StreamKind::Redefined),
    ("node,id=16,data=c,attr=14,parent=15", StreamKind::Redefined),
];

fn lines() -> &'static [(&'static str, &'static str)] {
    &LINES
}

fn faults() -> &'static [(&'static str, StreamKind)] {
    &FAULTS
}

#[test]
fn usual_lines_say_what_others_say(rt: HostRuntime) {
    all_hold(&rt, wrong_row(rt.alloc(), HEAD, lines(), "\n"));
    all_hold(&rt, wrong_fault(rt.alloc(), HEAD, faults()));
}
