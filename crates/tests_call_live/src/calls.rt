//! A call of `live`, and one of `serial`, over streams and clocks in memory.
//!
//! What owns much lends it to what has the exits, so that each is proved quickly; and where a call
//! can't be made there is nothing.
ghost use Rattle.std.specs.Prelude.{◌≡◌, length, IfOk};

use cal_base::{MemClock, MemSink, MemSource, OpenGate};
use cal_call::{Outcome, run};
use cal_call_live::run_live;
use cal_run::Formulas;
use cal_value::{OutOfMemory, Seq};
use std::alloc::Global;
use std::hash::RandomState;
use std::random::RandomSource;
use std::sync::Wait;
use std::thread::Threads;

/// Room for all that a call of these tests writes.
const ROOM: u64 = 100_000;

/// What a call reads, and where it writes.
#[derive(Drop)]
pub struct Streams {
    pub input: MemSource,
    pub output: MemSink,
    pub errors: MemSink,
}

/// The reads and the writes that fail, by their numbers from 1.
#[derive(Clone, Copy)]
pub struct Failing {
    pub reads: &'static [u64],
    pub writes: &'static [u64],
}

/// No read and no write fails.
pub const NONE: Failing = Failing {
    reads: &[],
    writes: &[],
};

fn texts(alloc: Global, words: &[&str]) -> Result<Vec<String>, OutOfMemory> {
    let mut texts = Vec::new(alloc);
    for word in words {
        texts.push(String::from_str(alloc, word)?)?;
    }
    Ok(texts)
}

/// A clock that shows 100, 90 and 95.
fn clock(alloc: Global) -> Result<MemClock, OutOfMemory> {
    let readings = Vec::from_slice(alloc, &[100, 90, 95])?;
    Ok(MemClock::new(Seq::from_vec(readings)))
}

/// Such a clock for each thread that a script may have.
fn clocks(alloc: Global) -> Result<Vec<MemClock>, OutOfMemory>
    ensures { IfOk result (λ clocks. length clocks.items ≡ 64) }
{
    let mut clocks = Vec::new(alloc);
    for _thread in 0..64u32 {
        clocks.push(clock(alloc)?)?;
    }
    Ok(clocks)
}

/// Streams over a text, of whose reads and writes some fail.
pub fn streams_of(alloc: Global, text: &str, failing: Failing) -> Result<Streams, OutOfMemory> {
    let bytes = Seq::from_vec(Vec::from_slice(alloc, text.as_bytes())?);
    let reads = Seq::from_vec(Vec::from_slice(alloc, failing.reads)?);
    let writes = Seq::from_vec(Vec::from_slice(alloc, failing.writes)?);
    Ok(Streams {
        input: MemSource::new(bytes, reads),
        output: MemSink::new(alloc, ROOM, writes)?,
        errors: MemSink::new(alloc, 100, Seq::new(alloc))?,
    })
}

/// How `live` by these words ends over streams, by these clocks.
fn lived<R: Threads + Wait + Sync + RandomSource>(
    rt: &R,
    alloc: Global,
    words: &[String],
    streams: &mut Streams,
    clocks: &mut Vec<MemClock>,
) -> Option<Outcome>
    requires { length clocks.old.items ≡ 64 }
{
    let hashers = RandomState::new(rt).ok()?;
    Some(run_live(
        rt,
        rt,
        alloc,
        hashers,
        words,
        &mut streams.input,
        &mut streams.output,
        &mut streams.errors,
        clocks,
        &OpenGate,
        &Formulas,
    ))
}

/// The same, by clocks of its own.
fn lived_of<R: Threads + Wait + Sync + RandomSource>(
    rt: &R,
    alloc: Global,
    words: &[String],
    streams: &mut Streams,
) -> Option<Outcome> {
    let mut clocks = clocks(alloc).ok()?;
    let outcome = lived(rt, alloc, words, streams, &mut clocks);
    drop(clocks);
    outcome
}

/// How the call of these words ends over streams.
pub fn live<R: Threads + Wait + Sync + RandomSource>(
    rt: &R,
    alloc: Global,
    words: &[&str],
    streams: &mut Streams,
) -> Option<Outcome> {
    let words = texts(alloc, words).ok()?;
    let outcome = lived_of(rt, alloc, words.as_slice(), streams);
    drop(words);
    outcome
}

/// The status of such a call, whose journal is dropped.
pub fn status_of<R: Threads + Wait + Sync + RandomSource>(
    rt: &R,
    alloc: Global,
    words: &[&str],
    streams: &mut Streams,
) -> Option<u8> {
    let outcome = live(rt, alloc, words, streams)?;
    let status = outcome.status;
    drop(outcome);
    Some(status)
}

/// The status of `run` by these words over streams, by these clocks.
fn ran<R: Threads + Sync + RandomSource>(
    rt: &R,
    alloc: Global,
    words: &[String],
    streams: &mut Streams,
    clocks: &mut Vec<MemClock>,
) -> Option<u8>
    requires { length clocks.old.items ≡ 64 }
{
    let hashers = RandomState::new(rt).ok()?;
    let outcome = run(
        rt,
        alloc,
        hashers,
        words,
        &mut streams.input,
        &mut streams.output,
        &mut streams.errors,
        clocks,
        &OpenGate,
        &Formulas,
    );
    Some(outcome.status)
}

/// The status of `serial` over streams.
pub fn serial<R: Threads + Sync + RandomSource>(
    rt: &R,
    alloc: Global,
    streams: &mut Streams,
) -> Option<u8> {
    let words = texts(alloc, &["serial"]).ok()?;
    let mut clocks = clocks(alloc).ok()?;
    let status = ran(rt, alloc, words.as_slice(), streams, &mut clocks);
    drop(clocks);
    drop(words);
    status
}
