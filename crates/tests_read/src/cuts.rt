//! A stream that is cut after each of its bytes.

use crate::pieces::in_bytes;
use crate::shown::all_hold;
use cal_read::{StreamEnd, read_records};
use cal_value::{Rec, Records, Seq};
use std::alloc::Global;

// the profile of four threads, with a row at lines 6, 10, 13 and 15
const PROFILE: &str = "__rec=node,id=12,attr=10,data=65,parent=1\n\
    __rec=node,id=13,attr=8,data=count,parent=12\n\
    __rec=node,id=14,attr=8,data=sum#time.duration.ns,parent=12\n\
    __rec=node,id=15,attr=8,data=min#time.duration.ns,parent=12\n\
    __rec=node,id=16,attr=8,data=max#time.duration.ns,parent=12\n\
    __rec=ctx,attr=13=14=15=16,data=4=0=0=0\n\
    __rec=node,id=17,attr=10,data=276,parent=3\n\
    __rec=node,id=18,attr=8,data=function,parent=17\n\
    __rec=node,id=19,attr=18,data=main\n\
    __rec=ctx,ref=19,attr=13=14=15=16,data=8=48=2=10\n\
    __rec=node,id=20,attr=8,data=loop,parent=17\n\
    __rec=node,id=21,attr=20,data=steps,parent=19\n\
    __rec=ctx,ref=21,attr=13=14=15=16,data=20=40=0=5\n\
    __rec=node,id=22,attr=18,data=solve,parent=21\n\
    __rec=ctx,ref=22,attr=13=14=15=16,data=8=200=20=30\n";

/// How many rows stand in so many of its lines.
const ROWS: [usize; 16] = [0, 0, 0, 0, 0, 0, 1, 1, 1, 1, 2, 2, 2, 3, 3, 4];

fn rows_in(lines: usize) -> Option<usize> {
    ROWS.get(lines).copied()
}

/// What became of a stream, by both ways of reading: how many rows it has, or its fault's line.
#[derive(Clone, Copy, Debug, PartialEq, Eq)]
enum Cut {
    Rows(usize),
    Line(u64),
    /// The two ways differ, or memory ran out.
    Else,
}

/// What records come to, which another way of reading has in two parts.
fn compared(whole: &Records, rows: &[Rec], globals: &Result<Rec, StreamEnd>) -> Cut {
    match globals {
        Ok(globals) if whole.rows.as_slice() == rows && whole.globals == *globals => {
            Cut::Rows(rows.len())
        }
        _ => Cut::Else,
    }
}

/// What a fault comes to, which another way of reading may have too.
fn refused(end: &StreamEnd, other: &Result<Rec, StreamEnd>) -> Cut {
    match (end, other) {
        (StreamEnd::BadLine { line, .. }, Err(found)) if *found == *end => Cut::Line(*line),
        _ => Cut::Else,
    }
}

/// What becomes of a stream.
fn read_cut(alloc: Global, bytes: &[u8]) -> Cut {
    let mut rows = Seq::new(alloc);
    let globals = in_bytes(alloc, bytes, &mut rows);
    match read_records(alloc, bytes) {
        Ok(whole) => compared(&whole, rows.as_slice(), &globals),
        Err(end) => refused(&end, &globals),
    }
}

/// Whether a stream that is cut behind so many whole lines has what it should: behind a line's end
/// its rows so far, and within a line these with the cut one, or that line's fault.
fn is_right(found: Cut, lines: usize, is_whole: bool) -> bool {
    let Some(rows) = rows_in(lines) else {
        return false;
    };
    match found {
        Cut::Rows(count) if is_whole => count == rows,
        Cut::Rows(count) => Some(count) == rows_in(lines.saturating_add(1)),
        Cut::Line(line) => !is_whole && line == (lines as u64).saturating_add(1),
        Cut::Else => false,
    }
}

/// The first place where the stream is cut otherwise.
fn wrong_cut(alloc: Global) -> Option<usize> {
    let bytes = PROFILE.as_bytes();
    let mut lines: usize = 0;
    for place in 0..bytes.len() {
        let is_whole = bytes[place] == b'\n';
        lines = lines.saturating_add(usize::from(is_whole));
        if !is_right(read_cut(alloc, &bytes[..place + 1]), lines, is_whole) {
            return Some(place);
        }
    }
    None
}

#[test]
fn a_stream_cut_after_each_byte_has_its_rows_or_the_fault_of_the_cut_line(rt: HostRuntime) {
    all_hold(&rt, Ok(wrong_cut(rt.alloc())));
}
