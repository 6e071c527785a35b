//! A call over streams in memory.
//!
//! What owns much lends it to what has the exits, so that each is proved quickly; and where a call
//! can't be made there is nothing.

use cal_base::{MemSink, MemSource};
use cal_call_names::{NamesOutcome, run_names};
use cal_value::{OutOfMemory, Seq};
use std::alloc::Global;
use std::thread::Threads;

/// What a call reads, and where it writes.
#[derive(Drop)]
pub struct Streams {
    pub input: MemSource,
    pub output: MemSink,
    pub errors: MemSink,
}

fn texts(alloc: Global, words: &[&str]) -> Result<Vec<String>, OutOfMemory> {
    let mut texts = Vec::new(alloc);
    for word in words {
        texts.push(String::from_str(alloc, word)?)?;
    }
    Ok(texts)
}

/// A source of a text, of which the reads of these numbers fail.
fn source(alloc: Global, text: &str, failing: &[u64]) -> Result<MemSource, OutOfMemory> {
    let bytes = Vec::from_slice(alloc, text.as_bytes())?;
    let failing = Vec::from_slice(alloc, failing)?;
    Ok(MemSource::new(Seq::from_vec(bytes), Seq::from_vec(failing)))
}

/// Streams over a text, of which the reads of these numbers fail, with room for so many bytes of
/// output.
pub fn streams_of(
    alloc: Global,
    text: &str,
    failing: &[u64],
    room: u64,
) -> Result<Streams, OutOfMemory> {
    let input = source(alloc, text, failing)?;
    let output = MemSink::new(alloc, room, Seq::new(alloc))?;
    let errors = MemSink::new(alloc, 100, Seq::new(alloc))?;
    Ok(Streams {
        input,
        output,
        errors,
    })
}

/// How the call of these words over streams ends.
pub fn outcome_of<R: Threads + Sync + AllocGlobal>(
    rt: &R,
    words: &[&str],
    streams: &mut Streams,
) -> Option<NamesOutcome> {
    let words = texts(rt.alloc(), words).ok()?;
    let outcome = run_names(
        rt,
        rt.alloc(),
        words.as_slice(),
        &mut streams.input,
        &mut streams.output,
        &mut streams.errors,
    );
    drop(words);
    Some(outcome)
}

/// The status of that call.
pub fn status_of<R: Threads + Sync + AllocGlobal>(
    rt: &R,
    words: &[&str],
    streams: &mut Streams,
) -> Option<u8> {
    let outcome = outcome_of(rt, words, streams)?;
    let status = outcome.status;
    drop(outcome);
    Some(status)
}
