//! Each kind of fault.

use crate::shown::{all_hold, fails_at, is_true, joined, reads_as, wrong_fault};
use cal_read::StreamKind;
use cal_value::OutOfMemory;
use std::alloc::{AllocError, Global};

// a stream with an attribute `a` (id 13) below properties 276 (id 12), a node of it (id 14), and an
// attribute `i` of kind int and properties 21 (id 16)
const FRONT: &str = "__rec=node,id=12,attr=10,data=276,parent=3\n\
    __rec=node,id=13,attr=8,data=a,parent=12\n\
    __rec=node,id=14,attr=13,data=x\n\
    __rec=node,id=15,attr=10,data=21,parent=1\n\
    __rec=node,id=16,attr=8,data=i,parent=15\n";

/// The sixth line, and its fault: each kind alone, and two on one line in both orders.
const FAULTS: [(&str, StreamKind); 34] = [
    ("a", StreamKind::BadField),
    ("__rec=ctx,ref=14,ref=14", StreamKind::BadField),
    ("__rec=ctx,k=1,\\k=2", StreamKind::BadField),
    ("__rec=ctx,__rec=ctx", StreamKind::BadField),
    ("ref=14,__rec=ctx", StreamKind::NoRecord),
    ("__rec=ctx=ctx", StreamKind::NoRecord),
    ("__rec=row", StreamKind::NoRecord),
    ("__rec=node,attr=13,data=x", StreamKind::MissingField),
    ("__rec=node,id=17,data=x", StreamKind::MissingField),
    ("__rec=node,id=17,attr=13", StreamKind::MissingField),
    (
        "__rec=node,id=17,attr=13,data=x=y",
        StreamKind::MissingField,
    ),
    (
        "__rec=node,id=17,attr=13,data=x,parent=14=14",
        StreamKind::MissingField,
    ),
    ("__rec=node,id=x,attr=13", StreamKind::MissingField),
    ("__rec=ctx,attr=16", StreamKind::Uneven),
    ("__rec=ctx,data=1", StreamKind::Uneven),
    ("__rec=globals,attr=16=16,data=1", StreamKind::Uneven),
    ("__rec=ctx,ref=x,attr=16", StreamKind::Uneven),
    ("__rec=node,id=-1,attr=13,data=x", StreamKind::BadNumber),
    (
        "__rec=node,id=18446744073709551616,attr=13,data=x",
        StreamKind::BadNumber,
    ),
    ("__rec=ctx,ref=", StreamKind::BadNumber),
    ("__rec=ctx,ref=99=x", StreamKind::BadNumber),
    ("__rec=ctx,ref=x=99", StreamKind::BadNumber),
    ("__rec=ctx,ref=17", StreamKind::UnknownNode),
    ("__rec=node,id=17,attr=17,data=x", StreamKind::UnknownNode),
    (
        "__rec=node,id=17,attr=14,data=x,parent=99",
        StreamKind::UnknownNode,
    ),
    ("__rec=ctx,attr=14,data=x", StreamKind::NotAttribute),
    ("__rec=ctx,attr=16=14,data=x=x", StreamKind::NotAttribute),
    ("__rec=ctx,attr=16,data=x", StreamKind::BadValue),
    (
        "__rec=node,id=17,attr=10,data=4294967296",
        StreamKind::BadValue,
    ),
    ("__rec=node,id=17,attr=10,data=-1", StreamKind::BadValue),
    ("__rec=node,id=17,attr=8,data=b", StreamKind::NoKind),
    ("__rec=node,id=14,attr=8,data=b", StreamKind::NoKind),
    ("__rec=node,id=14,attr=13,data=y", StreamKind::Redefined),
    ("__rec=node,id=3,attr=13,data=y", StreamKind::Redefined),
];

fn faults() -> &'static [(&'static str, StreamKind)] {
    &FAULTS
}

#[test]
fn faults_of_a_line_come_in_order(rt: HostRuntime) {
    all_hold(&rt, wrong_fault(rt.alloc(), FRONT, faults()));
}

#[test]
fn a_line_that_is_no_text_is_refused(rt: HostRuntime) {
    let stream = b"\n__rec=ctx\n\xff,\n";
    assert!(rt; fails_at(rt.alloc(), stream, 3, StreamKind::NotText));
}

/// A node below the one before.
fn put_level(alloc: Global, level: u32, stream: &mut String) -> Result<(), AllocError> {
    let id = 100 + u64::from(level);
    let parent = id - 1;
    let line = format!(in alloc; "__rec=node,id={id},attr=13,data=x,parent={parent}\n")?;
    stream.push_str(line.as_str())
}

fn put_levels(alloc: Global, depth: u32, stream: &mut String) -> Result<(), AllocError> {
    for level in 1..depth {
        put_level(alloc, level, stream)?;
    }
    Ok(())
}

/// A stream of nodes one below another, so many.
fn deep(alloc: Global, depth: u32) -> Result<String, AllocError> {
    let mut stream = joined(alloc, &[FRONT, "__rec=node,id=100,attr=13,data=x\n"])?;
    put_levels(alloc, depth, &mut stream)?;
    Ok(stream)
}

fn is_read(alloc: Global, depth: u32) -> Result<bool, OutOfMemory> {
    let stream = deep(alloc, depth)?;
    reads_as(alloc, stream.as_bytes(), ";")
}

fn is_too_deep(alloc: Global, depth: u32, line: u64) -> Result<bool, OutOfMemory> {
    let stream = deep(alloc, depth)?;
    let kind = StreamKind::TooDeep;
    Ok(fails_at(alloc, stream.as_bytes(), line, kind))
}

#[test]
fn a_path_has_at_most_1024_entries(rt: HostRuntime) {
    is_true(&rt, is_read(rt.alloc(), 1024));
    is_true(&rt, is_too_deep(rt.alloc(), 1025, 1030));
}
