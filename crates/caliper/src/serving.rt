//! The call that runs scripts and queries streams.

use crate::clocks::clocks_of;
use crate::out_of_memory;
use crate::probes::{count_of, depth_of};
use cal_base::{OpenGate, Sink, Source};
use cal_call::{WordsEnd, serve};
use cal_probe::{Probe, ProbeKind, Probes};
use std::hash::RandomState;
use std::process::ExitCode;
use std::thread::Threads;
use std::time::Clock;

/// Serves a command line, with a clock over the machine's for each thread, an open gate and the
/// probes, and gives the status; where memory for these is refused, it tells so.
pub fn serve_words<R: Threads + Sync + AllocGlobal + Clock, S: Source, W: Sink, E: Sink>(
    rt: &R,
    hashers: RandomState,
    words: Result<Vec<String>, WordsEnd>,
    input: &mut S,
    output: &mut W,
    errors: &mut E,
) -> ExitCode {
    let Ok(mut clocks) = clocks_of(rt.alloc(), rt) else {
        return out_of_memory(errors);
    };
    let depth = Probe::new(ProbeKind::Depth, depth_of);
    let count = Probe::new(ProbeKind::Count, count_of);
    serve(
        rt,
        rt.alloc(),
        hashers,
        words,
        input,
        output,
        errors,
        &mut clocks,
        &OpenGate,
        &Probes::new(depth, count),
    )
}
