//! Reads, writes and room that fail in turn.

use crate::calls::{Streams, failing_source, one, sink, source, status_of, streams_over};
use crate::scripts::{FIRST, FIRST_TEXT, FOUR, FOUR_TEXT};
use cal_base::{MemSink, OpenGate};
use cal_call::{Fault, put_fault};
use std::alloc::Global;
use std::random::RandomSource;
use std::thread::Threads;

/// A call, and the text that it writes.
#[derive(Clone, Copy)]
struct Row {
    word: &'static str,
    script: &'static str,
    text: &'static str,
}

/// The first script, and one of four threads with a profile, whose text no schedule changes.
const ROWS: [Row; 4] = [
    Row {
        word: "serial",
        script: FIRST,
        text: FIRST_TEXT,
    },
    Row {
        word: "replay",
        script: FIRST,
        text: FIRST_TEXT,
    },
    Row {
        word: "serial",
        script: FOUR,
        text: FOUR_TEXT,
    },
    Row {
        word: "replay",
        script: FOUR,
        text: FOUR_TEXT,
    },
];

fn rows() -> &'static [Row] {
    &ROWS
}

/// A call with a short text.
const SHORT: Row = Row {
    word: "serial",
    script: FIRST,
    text: FIRST_TEXT,
};

/// What a call left: its status, how many bytes of the text it wrote, and how many bytes it told.
#[derive(Clone, Copy, Debug, PartialEq, Eq)]
struct Left {
    status: u8,
    written: usize,
    told: usize,
}

/// What streams and a status come to, if the output is a front of the row's text.
fn left_in(row: &Row, streams: &Streams, status: u8) -> Option<Left> {
    let written = streams.output.bytes();
    if !row.text.as_bytes().starts_with(written) {
        return None;
    }
    Some(Left {
        status,
        written: written.len(),
        told: streams.errors.bytes().len(),
    })
}

/// What a row's call over streams leaves.
fn left_over<R: Threads + Sync + RandomSource>(
    rt: &R,
    alloc: Global,
    row: &Row,
    streams: &mut Streams,
) -> Option<Left> {
    let status = status_of(rt, alloc, &[row.word], streams, &OpenGate)?;
    left_in(row, streams, status)
}

/// What it leaves where the read of this number fails.
fn by_read<R: Threads + Sync + RandomSource>(
    rt: &R,
    alloc: Global,
    row: &Row,
    read: u64,
) -> Option<Left> {
    let input = failing_source(alloc, row.script, read).ok()?;
    let mut streams = streams_over(alloc, input, 1000).ok()?;
    let left = left_over(rt, alloc, row, &mut streams);
    drop(streams);
    left
}

/// Streams over a text with these sinks.
fn streams_with(alloc: Global, text: &str, output: MemSink, errors: MemSink) -> Option<Streams> {
    let input = source(alloc, text).ok()?;
    Some(Streams {
        input,
        output,
        errors,
    })
}

/// What it leaves with this output.
fn by_output<R: Threads + Sync + RandomSource>(
    rt: &R,
    alloc: Global,
    row: &Row,
    output: MemSink,
) -> Option<Left> {
    let errors = sink(alloc, 100).ok()?;
    let mut streams = streams_with(alloc, row.script, output, errors)?;
    let left = left_over(rt, alloc, row, &mut streams);
    drop(streams);
    left
}

/// What it leaves where the write of this number fails.
fn by_write<R: Threads + Sync + RandomSource>(
    rt: &R,
    alloc: Global,
    row: &Row,
    put: u64,
) -> Option<Left> {
    let output = MemSink::new(alloc, 1000, one(alloc, put).ok()?).ok()?;
    by_output(rt, alloc, row, output)
}

/// What it leaves with room for so many bytes of output.
fn by_room<R: Threads + Sync + RandomSource>(
    rt: &R,
    alloc: Global,
    row: &Row,
    room: u64,
) -> Option<Left> {
    let output = sink(alloc, room).ok()?;
    by_output(rt, alloc, row, output)
}

/// A faulty script.
const FAULTY: Row = Row {
    word: "serial",
    script: "begin",
    text: "",
};

/// What a call of it leaves with room for so many bytes of faults.
fn by_errors<R: Threads + Sync + RandomSource>(rt: &R, alloc: Global, room: u64) -> Option<Left> {
    let errors = sink(alloc, room).ok()?;
    let output = sink(alloc, 10).ok()?;
    let mut streams = streams_with(alloc, FAULTY.script, output, errors)?;
    let left = left_over(rt, alloc, &FAULTY, &mut streams);
    drop(streams);
    left
}

/// Whether a fault has this line.
fn is_told(alloc: Global, fault: &Fault, line: &str) -> bool {
    let Ok(mut errors) = sink(alloc, 100) else {
        return false;
    };
    put_fault(&mut errors, fault);
    errors.bytes() == line.as_bytes()
}

/// What a row's call leaves that was done whole.
fn whole(row: &Row) -> Option<Left> {
    Some(Left {
        status: 0,
        written: row.text.len(),
        told: 0,
    })
}

/// What a call leaves whose input failed.
fn unread() -> Option<Left> {
    Some(Left {
        status: 5,
        written: 0,
        told: "caliper: read failed\n".len(),
    })
}

/// What a call leaves whose output failed behind so many bytes.
fn unwritten(written: usize) -> Option<Left> {
    Some(Left {
        status: 6,
        written,
        told: "caliper: write failed\n".len(),
    })
}

/// Each read: the script comes with the first, and its end with the second.
#[test]
fn a_failed_read_is_told(rt: HostRuntime) {
    let alloc = rt.alloc();
    for row in rows() {
        assert_eq!(rt; by_read(&rt, alloc, row, 1), unread());
        assert_eq!(rt; by_read(&rt, alloc, row, 2), unread());
        assert_eq!(rt; by_read(&rt, alloc, row, 3), whole(row));
    }
}

/// Each write, of which there is one.
#[test]
fn a_failed_write_is_told(rt: HostRuntime) {
    let alloc = rt.alloc();
    for row in rows() {
        assert_eq!(rt; by_write(&rt, alloc, row, 1), unwritten(0));
        assert_eq!(rt; by_write(&rt, alloc, row, 2), whole(row));
    }
}

/// The first number of bytes for which an output without more room doesn't keep so many of a text.
fn wrong_room<R: Threads + Sync + RandomSource>(rt: &R, alloc: Global, row: &Row) -> Option<usize> {
    for room in 0..row.text.len() {
        if by_room(rt, alloc, row, room as u64) != unwritten(room) {
            return Some(room);
        }
    }
    None
}

#[test]
fn a_sink_without_room_keeps_a_front(rt: HostRuntime) {
    let wrong = wrong_room(&rt, rt.alloc(), &SHORT);
    assert_eq!(rt; wrong, None);
}

#[test]
fn failing_errors_change_no_status(rt: HostRuntime) {
    for room in 0..24u64 {
        let left = by_errors(&rt, rt.alloc(), room);
        let wanted = Left {
            status: 3,
            written: 0,
            told: room as usize,
        };
        assert_eq!(rt; left, Some(wanted), "room {room}");
    }
}

const LINES: [(Fault, &str); 6] = [
    (
        Fault::LinesRefused { lines: u64::MAX },
        "caliper: refused lines: 18446744073709551615\n",
    ),
    (
        Fault::Usage { word: u32::MAX },
        "caliper: usage: word 4294967296\n",
    ),
    (Fault::ReadFault, "caliper: read failed\n"),
    (Fault::WriteFault, "caliper: write failed\n"),
    (Fault::OutOfMemory, "caliper: out of memory\n"),
    (Fault::TooLong, "caliper: input too long\n"),
];

fn lines() -> &'static [(Fault, &'static str)] {
    &LINES
}

#[test]
fn each_fault_has_its_line(rt: HostRuntime) {
    for (fault, line) in lines() {
        assert!(rt; is_told(rt.alloc(), fault, line), "{line}");
    }
}
