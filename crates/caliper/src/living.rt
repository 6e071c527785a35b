//! The call that runs scripts beside a thread that collects what the others flush.

use crate::clocks::clocks_of;
use crate::out_of_memory;
use crate::probes::{count_of, depth_of};
use cal_base::{OpenGate, Sink, Source};
use cal_call_live::run_live;
use cal_probe::{Probe, ProbeKind, Probes};
use std::hash::RandomState;
use std::process::ExitCode;
use std::sync::Wait;
use std::thread::Threads;
use std::time::Clock;

/// Does what the words of `live` ask for, with what `serve_words` lends too, and gives the status;
/// where memory for the clocks is refused, it tells so. That it returns isn't promised.
pub fn live<R: Threads + Wait + Sync + AllocGlobal + Clock, S: Source, W: Sink, E: Sink>(
    rt: &R,
    hashers: RandomState,
    words: &[String],
    input: &mut S,
    output: &mut W,
    errors: &mut E,
) -> ExitCode {
    let Ok(mut clocks) = clocks_of(rt.alloc(), rt) else {
        return out_of_memory(errors);
    };
    let depth = Probe::new(ProbeKind::Depth, depth_of);
    let count = Probe::new(ProbeKind::Count, count_of);
    let outcome = run_live(
        rt,
        rt,
        rt.alloc(),
        hashers,
        words,
        input,
        output,
        errors,
        &mut clocks,
        &OpenGate,
        &Probes::new(depth, count),
    );
    ExitCode::from(outcome.status)
}
