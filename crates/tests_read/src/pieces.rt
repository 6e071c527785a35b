//! Streams in pieces.
ghost use Rattle.cal_read.specs.Owned.{IsOwnedReady};
ghost use Rattle.cal_read.specs.Reading.{IsReady};

use crate::shown::{all_hold, are_shown, fails_at, is_true, reads_as};
use cal_context::{Context, Taken};
use cal_read::{Reader, StreamEnd, StreamKind, StreamReader, one_reading, readings_stay};
use cal_value::{OutOfMemory, Rec, Seq};
use std::alloc::Global;

// a node for a unit, a blank line and globals
const STREAM: &str = "__rec=node,id=12,attr=10,data=276,parent=3\n\
    __rec=node,id=13,attr=8,data=function,parent=12\n\
    __rec=node,id=14,attr=13,data=main\n\
    __rec=node,id=15,attr=8,data=attribute.unit,parent=3\n\
    __rec=node,id=16,attr=15,data=sec,parent=5\n\
    __rec=node,id=20,attr=10,data=2113,parent=16\n\
    __rec=node,id=21,attr=8,data=time.duration,parent=20\n\
    \n\
    __rec=ctx,ref=14,attr=21,data=0.250000\n\
    __rec=globals,ref=14\n";

const RECORDS: &str = "function=main,|time.duration=0.25,;function=main,|;";

/// Reads a stream in these pieces.
fn in_pieces(alloc: Global, pieces: &[&[u8]], rows: &mut Seq<Rec>) -> Result<Rec, StreamEnd> {
    let mut reader = Reader::new(alloc)?;
    let read = feed_all(&mut reader, pieces, rows);
    drop(reader);
    read
}

fn feed_all(reader: &mut Reader, pieces: &[&[u8]], rows: &mut Seq<Rec>) -> Result<Rec, StreamEnd>
    requires { IsOwnedReady reader.old }
{
    for piece in pieces {
        reader.feed(piece, rows)?;
    }
    reader.finish(rows)
}

/// Reads a stream byte by byte.
pub(crate) fn in_bytes(alloc: Global, bytes: &[u8], rows: &mut Seq<Rec>) -> Result<Rec, StreamEnd> {
    let mut reader = Reader::new(alloc)?;
    let read = feed_bytes(&mut reader, bytes, rows);
    drop(reader);
    read
}

fn feed_bytes(reader: &mut Reader, bytes: &[u8], rows: &mut Seq<Rec>) -> Result<Rec, StreamEnd>
    requires { IsOwnedReady reader.old }
{
    for place in 0..bytes.len() {
        reader.feed(&bytes[place..place + 1], rows)?;
    }
    reader.finish(rows)
}

/// Whether the records, the globals last, are the stream's.
fn is_shown(
    alloc: Global,
    rows: &[Rec],
    read: Result<Rec, StreamEnd>,
) -> Result<bool, OutOfMemory> {
    match read {
        Ok(globals) => are_shown(alloc, rows, &globals, RECORDS),
        Err(_) => Ok(false),
    }
}

fn is_read_in_two(alloc: Global, one: &[u8], two: &[u8]) -> Result<bool, OutOfMemory> {
    let mut rows = Seq::new(alloc);
    let read = in_pieces(alloc, &[one, two], &mut rows);
    is_shown(alloc, rows.as_slice(), read)
}

fn is_read_in_bytes(alloc: Global) -> Result<bool, OutOfMemory> {
    let mut rows = Seq::new(alloc);
    let read = in_bytes(alloc, STREAM.as_bytes(), &mut rows);
    is_shown(alloc, rows.as_slice(), read)
}

/// The first place where the stream can't be cut in two.
fn wrong_cut(alloc: Global) -> Result<Option<usize>, OutOfMemory> {
    let bytes = STREAM.as_bytes();
    for place in 0..bytes.len() {
        if !is_read_in_two(alloc, &bytes[..place], &bytes[place..])? {
            return Ok(Some(place));
        }
    }
    Ok(None)
}

#[test]
fn a_stream_in_one_piece(rt: HostRuntime) {
    is_true(&rt, reads_as(rt.alloc(), STREAM.as_bytes(), RECORDS));
}

#[test]
fn a_stream_in_two_pieces_at_each_place(rt: HostRuntime) {
    all_hold(&rt, wrong_cut(rt.alloc()));
}

#[test]
fn a_stream_in_single_bytes(rt: HostRuntime) {
    is_true(&rt, is_read_in_bytes(rt.alloc()));
}

/// The places of a cut, and what is read up to it.
const FRONTS: [(usize, &str); 3] = [
    (16, "cali.attribute.type=string,|;;"),
    (15, "cali.attribute.type=string,|;;"),
    (0, ";"),
];

/// The places of a cut, and the fault of what stands before it.
const FAULTS: [(usize, u64, StreamKind); 4] = [
    (14, 1, StreamKind::BadNumber),
    (5, 1, StreamKind::BadField),
    (20, 2, StreamKind::BadField),
    (30, 2, StreamKind::BadNumber),
];

fn fronts() -> &'static [(usize, &'static str)] {
    &FRONTS
}

fn faults() -> &'static [(usize, u64, StreamKind)] {
    &FAULTS
}

fn front(length: usize) -> &'static [u8] {
    b"__rec=ctx,ref=3\n__rec=ctx,ref="
        .get(..length)
        .unwrap_or(&[])
}

fn wrong_front(alloc: Global) -> Result<Option<usize>, OutOfMemory> {
    let rows = fronts();
    for row in 0..rows.len() {
        if !reads_as(alloc, front(rows[row].0), rows[row].1)? {
            return Ok(Some(row));
        }
    }
    Ok(None)
}

fn wrong_fault(alloc: Global) -> Option<usize> {
    let rows = faults();
    for row in 0..rows.len() {
        let (length, line, kind) = rows[row];
        if !fails_at(alloc, front(length), line, kind) {
            return Some(row);
        }
    }
    None
}

#[test]
fn a_front_has_its_records_or_its_fault(rt: HostRuntime) {
    all_hold(&rt, wrong_front(rt.alloc()));
    all_hold(&rt, Ok(wrong_fault(rt.alloc())));
}

const REFUSED: StreamEnd = StreamEnd::BadLine {
    line: 1,
    kind: StreamKind::UnknownNode,
};

/// Feeds a faulty line, and then more. It says whether all is refused.
fn refuses(reader: &mut Reader, rows: &mut Seq<Rec>) -> bool
    requires { IsOwnedReady reader.old }
{
    reader.feed(b"__rec=ctx,ref=12", rows).is_ok()
        && reader.feed(b"\n", rows) == Err(REFUSED)
        && reader.feed(STREAM.as_bytes(), rows) == Err(REFUSED)
        && matches!(reader.finish(rows), Err(end) if end == REFUSED)
}

fn is_refused(alloc: Global) -> Result<bool, OutOfMemory> {
    let mut rows = Seq::new(alloc);
    let mut reader = Reader::new(alloc)?;
    let refused = refuses(&mut reader, &mut rows);
    drop(reader);
    Ok(refused && rows.is_empty())
}

#[test]
fn a_refusal_is_answered_again(rt: HostRuntime) {
    is_true(&rt, is_refused(rt.alloc()));
}

/// The numbers of nodes of the globals.
fn by_number(alloc: Global, context: &mut Context, taken: &mut Taken) -> Result<usize, StreamEnd> {
    let mut reader = StreamReader::new(alloc, context)?;
    let read = feed_by_number(&mut reader, context, taken);
    drop(reader);
    read
}

fn feed_by_number(
    reader: &mut StreamReader,
    context: &mut Context,
    taken: &mut Taken,
) -> Result<usize, StreamEnd>
    requires { IsReady reader.old context.old }
{
    reader.feed(STREAM.as_bytes(), context, taken)?;
    let globals = reader.finish(context, taken)?;
    Ok(globals.nodes.len())
}

#[test]
fn a_taker_takes_the_rows_by_number(rt: HostRuntime) {
    let mut taken = Taken::new(rt.alloc());
    let mut context = Context::new(rt.alloc());
    let globals = by_number(rt.alloc(), &mut context, &mut taken);
    drop(context);
    assert!(rt; globals == Ok(1));
    assert!(rt; taken.into_rows().len() == 1);
    one_reading();
    readings_stay();
}
