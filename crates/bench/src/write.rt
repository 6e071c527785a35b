//! The writing of records, beside plain copies of their text.
ghost use Rattle.std.specs.Prelude.{◌≡◌, IfOk};
ghost use Rattle.cal_write.specs.CanonicalText.{canonical_text};

use crate::copying;
use crate::records::{self, SOLVING, Shape, WRITING};
use anyhow::Result;
use cal_value::{Records, Text};
use cal_write::cali_text;
use std::alloc::Global;
use std::rt::Clock;
use std::time::{Duration, Instant};

const RECORDS: usize = 100_000;

const ROUNDS: u32 = 5;

/// The times of a round, or the shortest of some rounds.
#[derive(Clone, Copy)]
struct Times {
    written: Duration,
    bytes: Duration,
    buffer: Duration,
}

impl Times {
    fn least(self, other: Times) -> Times {
        Times {
            written: self.written.min(other.written),
            bytes: self.bytes.min(other.bytes),
            buffer: self.buffer.min(other.buffer),
        }
    }
}

/// Times the writing of records, beside the copying of their text with escapes.
pub fn measure(rt: &(impl Clock + Print + AllocGlobal)) -> Result<()> {
    time_shapes(rt, rt.alloc(), "the same attributes", &SOLVING)?;
    time_shapes(rt, rt.alloc(), "attributes in turn", &WRITING)
}

/// Every second record is of the other shape.
fn time_shapes(rt: &(impl Clock + Print), alloc: Global, what: &str, other: &Shape) -> Result<()> {
    let records = records::in_turn(alloc, &SOLVING, other, RECORDS)?;
    let timed = time_rounds(rt, alloc, what, &records);
    drop(records);
    timed
}

/// Prints the shortest times of some rounds.
fn time_rounds(
    rt: &(impl Clock + Print),
    alloc: Global,
    what: &str,
    records: &Records,
) -> Result<()> {
    let (mut best, length) = time_round(rt, alloc, records)?;
    for _round in 1..ROUNDS {
        let (times, _length) = time_round(rt, alloc, records)?;
        best = best.least(times);
    }
    report(rt, what, length, best)
}

fn report(rt: &impl Print, what: &str, length: usize, best: Times) -> Result<()> {
    let Times {
        written,
        bytes,
        buffer,
    } = best;
    println!(rt; "{what}: {length} bytes written in {written:?}")?;
    println!(rt; "    copied in {bytes:?}, and through a buffer in {buffer:?}")?;
    Ok(())
}

/// One round: the text is written, and copied in two ways. The length of the copies.
fn time_round(rt: &impl Clock, alloc: Global, records: &Records) -> Result<(Times, usize)> {
    let start = Instant::now(rt)?;
    let text = written(alloc, records)?;
    let timed = time_copies(rt, alloc, start, text.as_str());
    drop(text);
    timed
}

/// The copies of a text whose writing began at `start` and has ended now.
fn time_copies(
    rt: &impl Clock,
    alloc: Global,
    start: Instant,
    text: &str,
) -> Result<(Times, usize)> {
    let written = start.elapsed(rt)?;
    let (bytes, copied) = time_by_bytes(rt, alloc, text)?;
    let (buffer, through) = time_through_a_buffer(rt, alloc, text)?;
    let times = Times {
        written,
        bytes,
        buffer,
    };
    Ok((times, copied.min(through)))
}

fn time_by_bytes(rt: &impl Clock, alloc: Global, text: &str) -> Result<(Duration, usize)> {
    let start = Instant::now(rt)?;
    let copied = copying::by_bytes(alloc, text)?;
    let took = start.elapsed(rt);
    let length = copied.len();
    drop(copied);
    Ok((took?, length))
}

fn time_through_a_buffer(rt: &impl Clock, alloc: Global, text: &str) -> Result<(Duration, usize)> {
    let start = Instant::now(rt)?;
    let through = copying::through_a_buffer(alloc, text)?;
    Ok((start.elapsed(rt)?, through))
}

fn written(alloc: Global, records: &Records) -> Result<Text>
    ensures { IfOk result (λ text. text ≡ canonical_text records.now) }
{
    Ok(cali_text(alloc, records)?)
}
