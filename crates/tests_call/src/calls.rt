//! A call over streams and clocks in memory.
//!
//! What owns much lends it to what has the exits, so that each is proved quickly; and where a call
//! can't be made there is nothing.
ghost use Rattle.std.specs.Prelude.{◌≡◌, length, IfOk};

use cal_base::{Gate, MemClock, MemSink, MemSource};
use cal_call::{Outcome, run};
use cal_run::Formulas;
use cal_value::{OutOfMemory, Seq};
use std::alloc::Global;
use std::hash::RandomState;
use std::random::RandomSource;
use std::thread::Threads;

/// What a call reads, and where it writes.
#[derive(Drop)]
pub struct Streams {
    pub input: MemSource,
    pub output: MemSink,
    pub errors: MemSink,
}

pub fn texts(alloc: Global, words: &[&str]) -> Result<Vec<String>, OutOfMemory> {
    let mut texts = Vec::new(alloc);
    for word in words {
        texts.push(String::from_str(alloc, word)?)?;
    }
    Ok(texts)
}

/// A clock that shows 100, 90 and 95.
fn clock(alloc: Global) -> Result<MemClock, OutOfMemory> {
    let readings = Vec::from_slice(alloc, &[100, 90, 95])?;
    Ok(MemClock::new(Seq::from_vec(readings)))
}

/// Such a clock for each thread that a script may have.
pub fn clocks(alloc: Global) -> Result<Vec<MemClock>, OutOfMemory>
    ensures { IfOk result (λ clocks. length clocks.items ≡ 64) }
{
    let mut clocks = Vec::new(alloc);
    for _thread in 0..64u32 {
        clocks.push(clock(alloc)?)?;
    }
    Ok(clocks)
}

/// A source of a text, of whose reads none fails.
pub fn source(alloc: Global, text: &str) -> Result<MemSource, OutOfMemory> {
    let bytes = Vec::from_slice(alloc, text.as_bytes())?;
    Ok(MemSource::new(Seq::from_vec(bytes), Seq::new(alloc)))
}

/// A source of a text, whose read of this number fails.
pub fn failing_source(alloc: Global, text: &str, read: u64) -> Result<MemSource, OutOfMemory> {
    let bytes = Vec::from_slice(alloc, text.as_bytes())?;
    let failing = one(alloc, read)?;
    Ok(MemSource::new(Seq::from_vec(bytes), failing))
}

/// A sink with room for so many bytes, of whose writes none fails.
pub fn sink(alloc: Global, room: u64) -> Result<MemSink, OutOfMemory> {
    MemSink::new(alloc, room, Seq::new(alloc))
}

pub fn one(alloc: Global, number: u64) -> Result<Seq<u64>, OutOfMemory> {
    Ok(Seq::from_vec(vec![in alloc; number]?))
}

/// Streams over a source, with room for so many bytes of output.
pub fn streams_over(alloc: Global, input: MemSource, room: u64) -> Result<Streams, OutOfMemory> {
    let output = sink(alloc, room)?;
    let errors = sink(alloc, 100)?;
    Ok(Streams {
        input,
        output,
        errors,
    })
}

/// Streams over a text.
pub fn streams_of(alloc: Global, text: &str, room: u64) -> Result<Streams, OutOfMemory> {
    let input = source(alloc, text)?;
    streams_over(alloc, input, room)
}

/// The call of these words over streams, by these clocks.
fn call_by<R: Threads + Sync + RandomSource, G: Gate + Sync>(
    rt: &R,
    alloc: Global,
    words: &[String],
    streams: &mut Streams,
    clocks: &mut Vec<MemClock>,
    gate: &G,
) -> Option<Outcome>
    requires { length clocks.old.items ≡ 64 }
{
    let hashers = RandomState::new(rt).ok()?;
    Some(run(
        rt,
        alloc,
        hashers,
        words,
        &mut streams.input,
        &mut streams.output,
        &mut streams.errors,
        clocks,
        gate,
        &Formulas,
    ))
}

/// The same, by clocks of its own.
fn call_of<R: Threads + Sync + RandomSource, G: Gate + Sync>(
    rt: &R,
    alloc: Global,
    words: &[String],
    streams: &mut Streams,
    gate: &G,
) -> Option<Outcome> {
    let mut clocks = clocks(alloc).ok()?;
    let outcome = call_by(rt, alloc, words, streams, &mut clocks, gate);
    drop(clocks);
    outcome
}

/// The call of these words over streams, whose threads pass a gate.
pub fn call<R: Threads + Sync + RandomSource, G: Gate + Sync>(
    rt: &R,
    alloc: Global,
    words: &[&str],
    streams: &mut Streams,
    gate: &G,
) -> Option<Outcome> {
    let words = texts(alloc, words).ok()?;
    let outcome = call_of(rt, alloc, words.as_slice(), streams, gate);
    drop(words);
    outcome
}

/// The status of such a call, whose journal is dropped.
pub fn status_of<R: Threads + Sync + RandomSource, G: Gate + Sync>(
    rt: &R,
    alloc: Global,
    words: &[&str],
    streams: &mut Streams,
    gate: &G,
) -> Option<u8> {
    let outcome = call(rt, alloc, words, streams, gate)?;
    let status = outcome.status;
    drop(outcome);
    Some(status)
}
