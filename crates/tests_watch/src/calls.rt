//! A call over streams in memory, with a program's two triggers.
//!
//! What owns much lends it to what has the exits, so that each is proved quickly; and where a call
//! can't be made there is nothing.

use cal_base::{MemSink, MemSource};
use cal_call_watch::run_watch;
use cal_seeds::Seeds;
use cal_trigger::{Trigger, Triggers, is_in_main, is_slow, main_conditions, slow_conditions};
use cal_value::{OutOfMemory, Seq};
use std::alloc::Global;

/// What a call reads, and where it writes.
#[derive(Drop)]
pub struct Streams {
    pub input: MemSource,
    pub output: MemSink,
    pub errors: MemSink,
}

fn texts(alloc: Global, words: &[&str]) -> Result<Vec<String>, OutOfMemory> {
    let mut texts = Vec::new(alloc);
    for word in words {
        texts.push(String::from_str(alloc, word)?)?;
    }
    Ok(texts)
}

/// A source of a text, of which the reads of these numbers fail.
fn source(alloc: Global, text: &str, failing: &[u64]) -> Result<MemSource, OutOfMemory> {
    let bytes = Vec::from_slice(alloc, text.as_bytes())?;
    let failing = Vec::from_slice(alloc, failing)?;
    Ok(MemSource::new(Seq::from_vec(bytes), Seq::from_vec(failing)))
}

/// Streams over a text, of which the reads of these numbers fail, with room for so many bytes of
/// output.
pub fn streams_of(
    alloc: Global,
    text: &str,
    failing: &[u64],
    room: u64,
) -> Result<Streams, OutOfMemory> {
    let input = source(alloc, text, failing)?;
    let output = MemSink::new(alloc, room, Seq::new(alloc))?;
    let errors = MemSink::new(alloc, 100, Seq::new(alloc))?;
    Ok(Streams {
        input,
        output,
        errors,
    })
}

/// The status of the call of these words over streams.
fn status_by(alloc: Global, words: &[String], streams: &mut Streams) -> Option<u8> {
    let main = main_conditions(alloc).ok()?;
    let slow = slow_conditions(alloc).ok()?;
    let main = Trigger::new(main, is_in_main);
    let slow = Trigger::new(slow, is_slow);
    let outcome = run_watch(
        alloc,
        Seeds::fixed(),
        words,
        &mut streams.input,
        &mut streams.output,
        &mut streams.errors,
        &Triggers::new(main, slow),
    );
    let status = outcome.status;
    drop(outcome);
    Some(status)
}

/// The same of texts.
pub fn status_of(alloc: Global, words: &[&str], streams: &mut Streams) -> Option<u8> {
    let words = texts(alloc, words).ok()?;
    let status = status_by(alloc, words.as_slice(), streams);
    drop(words);
    status
}
