//! A call over files in memory.
//!
//! What owns much lends it to what has the exits, so that each is proved quickly; and where a call
//! can't be made there is nothing.
ghost use Rattle.std.specs.Prelude.{◌≡◌, IfOk};

use cal_base::MemSink;
use cal_call_files::{FilesOutcome, run_files};
use cal_files::{MemOpener, NamedBytes, Opener};
use cal_seeds::Seeds;
use cal_value::{OutOfMemory, Seq, Text};
use std::alloc::Global;
use std::thread::Threads;

/// Where a call writes.
#[derive(Drop)]
pub struct Sinks {
    pub output: MemSink,
    pub errors: MemSink,
}

/// Sinks with room for so many bytes of output.
pub fn sinks_of(alloc: Global, room: u64) -> Result<Sinks, OutOfMemory> {
    let output = MemSink::new(alloc, room, Seq::new(alloc))?;
    let errors = MemSink::new(alloc, 100, Seq::new(alloc))?;
    Ok(Sinks { output, errors })
}

/// The texts of words.
pub fn texts(alloc: Global, words: &[&str]) -> Result<Vec<String>, OutOfMemory> {
    let mut texts = Vec::new(alloc);
    for word in words {
        texts.push(String::from_str(alloc, word)?)?;
    }
    Ok(texts)
}

fn held(alloc: Global, files: &[(&str, &str)]) -> Result<Vec<NamedBytes>, OutOfMemory> {
    let mut held = Vec::new(alloc);
    for (name, text) in files {
        held.push(NamedBytes {
            name: Text::from_str(alloc, name)?,
            bytes: Seq::from_vec(Vec::from_slice(alloc, text.as_bytes())?),
        })?;
    }
    Ok(held)
}

/// An opener of these files, whose openings and reads of these numbers fail.
pub fn opener_of(
    alloc: Global,
    files: &[(&str, &str)],
    opens: &[u64],
    reads: &[u64],
) -> Result<MemOpener, OutOfMemory>
    ensures { IfOk result (λ opener. opener.openings ≡ 0) }
{
    let files = Seq::from_vec(held(alloc, files)?);
    let opens = Seq::from_vec(Vec::from_slice(alloc, opens)?);
    let reads = Seq::from_vec(Vec::from_slice(alloc, reads)?);
    Ok(MemOpener::new(files, opens, reads))
}

/// How the call of these words ends.
pub fn outcome_of<R: Threads + Sync + AllocGlobal, O: Opener>(
    rt: &R,
    words: &[String],
    opener: &mut O,
    sinks: &mut Sinks,
) -> FilesOutcome
    requires { O.openings opener.old ≡ 0 }
{
    run_files(
        rt,
        rt.alloc(),
        Seeds::fixed(),
        words,
        opener,
        &mut sinks.output,
        &mut sinks.errors,
    )
}
