//! The files that the calls name, and what a call over them leaves.
ghost use Rattle.std.specs.Prelude.{◌≡◌};

use crate::calls::{Sinks, opener_of, outcome_of, sinks_of, texts};
use cal_files::MemOpener;
use std::alloc::Global;
use std::process::Abort;
use std::thread::Threads;

pub type Words = &'static [&'static str];

/// The words of a call, what it writes, what it tells, and its status.
pub type Row = (Words, &'static str, &'static str, u8);

/// A stream with one row.
const MAIN: &str = "\
__rec=node,id=12,attr=10,data=276,parent=3
__rec=node,id=13,attr=8,data=function,parent=12
__rec=node,id=14,attr=13,data=main
__rec=ctx,ref=14
";

/// The first row of a stream with four, and the nodes of all.
const BEGUN: &str = "\
__rec=node,id=12,attr=10,data=276,parent=3
__rec=node,id=13,attr=8,data=function,parent=12
__rec=node,id=14,attr=13,data=main
__rec=node,id=15,attr=13,data=b,parent=14
__rec=node,id=16,attr=13,data=a,parent=14
__rec=node,id=17,attr=8,data=region,parent=3
__rec=node,id=18,attr=17,data=x
__rec=ctx,ref=15
";

/// The other rows, behind the same nodes.
const ENDED: &str = "\
__rec=node,id=12,attr=10,data=276,parent=3
__rec=node,id=13,attr=8,data=function,parent=12
__rec=node,id=14,attr=13,data=main
__rec=node,id=15,attr=13,data=b,parent=14
__rec=node,id=16,attr=13,data=a,parent=14
__rec=node,id=17,attr=8,data=region,parent=3
__rec=node,id=18,attr=17,data=x
__rec=ctx,ref=16
__rec=ctx,ref=14
__rec=ctx,ref=16=18
__rec=ctx,ref=14
";

/// A row of another function, whose node has the number that `MAIN` has for its own.
const OTHER: &str = "\
__rec=node,id=12,attr=10,data=276,parent=3
__rec=node,id=13,attr=8,data=function,parent=12
__rec=node,id=14,attr=13,data=other
__rec=ctx,ref=14
";

/// A stream whose third line is faulty, as the fifth is.
const FAULTY: &str = "\
__rec=node,id=12,attr=10,data=276,parent=3
__rec=node,id=13,attr=8,data=function,parent=12
__rec=ctx,ref=14

x
";

static FILES: [(&str, &str); 9] = [
    ("one", MAIN),
    ("two", MAIN),
    ("begun", BEGUN),
    ("ended", ENDED),
    ("other", OTHER),
    ("none", ""),
    ("faulty", FAULTY),
    ("bad", "__rec=ctx,ref=12\n"),
    ("", MAIN),
];

fn files() -> &'static [(&'static str, &'static str)] {
    &FILES
}

/// What is left otherwise than a row has it, or nothing.
fn difference(sinks: &Sinks, status: u8, row: &Row) -> &'static str {
    if sinks.output.bytes() != row.1.as_bytes() {
        "the output"
    } else if sinks.errors.bytes() != row.2.as_bytes() {
        "what is told"
    } else if status != row.3 {
        "the status"
    } else {
        ""
    }
}

/// What a call leaves otherwise over this opener, or nothing; `None` where it can't be made.
fn difference_over<R: Threads + Sync + AllocGlobal>(
    rt: &R,
    mut opener: MemOpener,
    row: &Row,
) -> Option<&'static str>
    requires { opener.openings ≡ 0 }
{
    let words = texts(rt.alloc(), row.0).ok()?;
    let mut sinks = sinks_of(rt.alloc(), 10_000).ok()?;
    let outcome = outcome_of(rt, words.as_slice(), &mut opener, &mut sinks);
    let found = difference(&sinks, outcome.status, row);
    drop(sinks);
    drop(words);
    drop(opener);
    Some(found)
}

/// The same over the files, whose openings and reads of these numbers fail.
fn difference_of<R: Threads + Sync + AllocGlobal>(
    rt: &R,
    opens: &[u64],
    reads: &[u64],
    row: &Row,
) -> Option<&'static str> {
    let opener = opener_of(rt.alloc(), files(), opens, reads).ok()?;
    difference_over(rt, opener, row)
}

/// Asserts that each call leaves what its row says, where these openings and reads fail.
pub fn assert_rows_by<R: Threads + Sync + Abort + AllocGlobal>(
    rt: &R,
    opens: &[u64],
    reads: &[u64],
    rows: &[Row],
) {
    for (place, row) in rows.iter().enumerate() {
        let found = difference_of(rt, opens, reads, row);
        assert_eq!(rt; found, Some(""), "row {place}");
    }
}

/// Asserts that each call leaves what its row says.
pub fn assert_rows<R: Threads + Sync + Abort + AllocGlobal>(rt: &R, rows: &[Row]) {
    assert_rows_by(rt, &[], &[], rows);
}
