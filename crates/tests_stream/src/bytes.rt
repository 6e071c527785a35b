//! Sources and sinks of bytes.

use crate::table::all_hold;
use cal_base::{Failed, MemSink, MemSource, ReadEnd, Sink, Source, StdSink, StdSource, read_all};
use cal_value::{OutOfMemory, Seq};
use std::alloc::{AllocError, Global};
use std::cell::Cell;
use std::io;
use std::io::{ErrorKind, Read, Write};

fn source(alloc: Global, bytes: &[u8], failing: u64) -> Result<MemSource, AllocError> {
    let bytes = Seq::from_vec(bytes.to_vec(alloc)?);
    let failing = Seq::from_vec([failing].to_vec(alloc)?);
    Ok(MemSource::new(bytes, failing))
}

/// Reads a source of these bytes, of which one call fails, up to four bytes. It says whether all came.
fn read_four(alloc: Global, bytes: &[u8], failing: u64) -> Result<bool, ReadEnd> {
    let mut input = source(alloc, bytes, failing)?;
    match read_all(alloc, &mut input, 4) {
        Ok(read) => Ok(read.as_slice() == bytes),
        Err(end) => Err(end),
    }
}

/// Bytes, the call that fails, and what comes of it. The first read gives the bytes, the second
/// meets the end, and there is no call 9.
const READS: [(&str, u64, Result<bool, ReadEnd>); 6] = [
    ("", 9, Ok(true)),
    ("abcd", 9, Ok(true)),
    ("abcde", 9, Err(ReadEnd::TooLong)),
    ("abcd", 1, Err(ReadEnd::ReadFault)),
    ("abcd", 2, Err(ReadEnd::ReadFault)),
    ("abcd", 3, Ok(true)),
];

fn reads() -> &'static [(&'static str, u64, Result<bool, ReadEnd>)] {
    &READS
}

fn wrong_read(alloc: Global) -> Option<usize> {
    let rows = reads();
    for row in 0..rows.len() {
        let (bytes, failing, wanted) = rows[row];
        if read_four(alloc, bytes.as_bytes(), failing) != wanted {
            return Some(row);
        }
    }
    None
}

#[test]
fn reads_to_the_limit(rt: HostRuntime) {
    all_hold(&rt, wrong_read(rt.alloc()));
}

fn sink(alloc: Global, room: u64, failing: u64) -> Result<MemSink, OutOfMemory> {
    let failing = Seq::from_vec([failing].to_vec(alloc)?);
    MemSink::new(alloc, room, failing)
}

/// Puts `abc` and `de` into a sink, up to the first fault. It says whether the sink then holds so many
/// of these five bytes.
fn put_two(sink: &mut MemSink, count: usize) -> bool {
    let _ = sink.put(b"abc").is_ok() && sink.put(b"de").is_ok();
    sink.bytes() == &b"abcde"[..count.min(5)]
}

fn holds(alloc: Global, room: u64, failing: u64, count: usize) -> bool {
    match sink(alloc, room, failing) {
        Ok(sink) => {
            let mut sink = sink;
            put_two(&mut sink, count)
        }
        Err(_) => false,
    }
}

/// The room, the call that fails, and how many bytes the sink holds. There is no call 9.
const ROOMS: [(u64, u64, usize); 10] = [
    (0, 9, 0),
    (1, 9, 1),
    (2, 9, 2),
    (3, 9, 3),
    (4, 9, 4),
    (5, 9, 5),
    (6, 9, 5),
    (6, 1, 0),
    (6, 2, 3),
    (6, 3, 5),
];

fn rooms() -> &'static [(u64, u64, usize)] {
    &ROOMS
}

fn wrong_room(alloc: Global) -> Option<usize> {
    let rows = rooms();
    for row in 0..rows.len() {
        let (room, failing, count) = rows[row];
        if !holds(alloc, room, failing, count) {
            return Some(row);
        }
    }
    None
}

#[test]
fn sinks_take_what_fits(rt: HostRuntime) {
    all_hold(&rt, wrong_room(rt.alloc()));
}

fn is_read_whole(alloc: Global, bytes: &[u8]) -> bool {
    let mut input = StdSource::new(bytes);
    match read_all(alloc, &mut input, 100) {
        Ok(read) => read.as_slice() == bytes,
        Err(_) => false,
    }
}

#[test]
fn reads_a_reader_of_std_to_its_end(rt: HostRuntime) {
    assert!(rt; is_read_whole(rt.alloc(), b"all of it"));
}

/// Fails once with this error, and then gives a byte.
#[derive(Drop)]
struct FailsOnce(Option<ErrorKind>);

impl Read for FailsOnce {
    fn read(&mut self, buf: &mut [u8]) -> io::Result<usize> {
        if let Some(kind) = self.0.take() {
            return Err(io::Error::from(kind));
        }
        if buf.is_empty() {
            return Ok(0);
        }
        buf[0] = b'x';
        Ok(1)
    }
}

/// What a reader gives that first fails with this error.
fn read_after(kind: ErrorKind) -> Result<usize, Failed> {
    let mut input = StdSource::new(FailsOnce(Some(kind)));
    input.read(&mut [0u8; 4])
}

/// Errors that end a read.
const ENDING: [ErrorKind; 5] = [
    ErrorKind::BrokenPipe,
    ErrorKind::WouldBlock,
    ErrorKind::TimedOut,
    ErrorKind::UnexpectedEof,
    ErrorKind::Other,
];

fn ending() -> &'static [ErrorKind] {
    &ENDING
}

fn wrong_ending() -> Option<usize> {
    let rows = ending();
    for row in 0..rows.len() {
        if read_after(rows[row]) != Err(Failed) {
            return Some(row);
        }
    }
    None
}

#[test]
fn only_an_interrupted_read_is_tried_again(rt: HostRuntime) {
    assert!(rt; read_after(ErrorKind::Interrupted) == Ok(1));
    all_hold(&rt, wrong_ending());
}

/// Takes a byte at a time, up to its room.
#[derive(Drop)]
struct Slow<'a> {
    room: &'a Cell<usize>,
}

impl Write for Slow<'_> {
    fn write(&mut self, buf: &[u8]) -> io::Result<usize> {
        let room = self.room.get();
        if room == 0 || buf.is_empty() {
            return Ok(0);
        }
        self.room.set(room - 1);
        Ok(1)
    }

    fn flush(&mut self) -> io::Result<()> {
        Ok(())
    }
}

#[test]
fn writes_all_of_a_piece_through_std(rt: HostRuntime) {
    let room = Cell::new(5);
    let mut output = StdSink::new(Slow { room: &room });
    assert!(rt; output.put(b"abc").is_ok());
    assert!(rt; room.get() == 2);
    assert!(rt; output.put(b"de").is_ok() && output.put(b"").is_ok());
    assert!(rt; output.put(b"f") == Err(Failed));
}

/// Fails one write with an error, and each flush if it is stuck, and takes everything else.
#[derive(Drop)]
struct Wayward {
    write: Option<ErrorKind>,
    stuck: bool,
}

impl Write for Wayward {
    fn write(&mut self, buf: &[u8]) -> io::Result<usize> {
        match self.write.take() {
            Some(kind) => Err(io::Error::from(kind)),
            None => Ok(buf.len()),
        }
    }

    fn flush(&mut self) -> io::Result<()> {
        if self.stuck {
            return Err(io::Error::from(ErrorKind::StorageFull));
        }
        Ok(())
    }
}

/// What comes of a write through such a writer.
fn put_through(write: Option<ErrorKind>, stuck: bool) -> Result<(), Failed> {
    let mut output = StdSink::new(Wayward { write, stuck });
    output.put(b"abc")
}

#[test]
fn a_failed_write_or_flush_is_a_fault(rt: HostRuntime) {
    assert!(rt; put_through(None, false).is_ok());
    assert!(rt; put_through(None, true).is_err());
    assert!(rt; put_through(Some(ErrorKind::Interrupted), false).is_ok());
    assert!(rt; put_through(Some(ErrorKind::BrokenPipe), false).is_err());
    assert!(rt; put_through(Some(ErrorKind::WouldBlock), false).is_err());
}
