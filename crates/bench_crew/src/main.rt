//! Times the running threads of a script alone: `bench_crew crew`, with the script as its input.
//!
//! `bench_crew hire` does all but run them, so that what the rest takes is known. With no word it
//! does nothing and writes nothing, as the gate runs it. That the threads run all lines is what
//! `cal_crew` says of them; of the times nothing is promised.
#![tactic(auto)]

mod clocks;
mod crew;
mod script;

use crate::crew::measure;
use crate::script::input_script;
use anyhow::Result;
use cal_base::{Source, StdSource};
use std::hash::RandomState;
use std::random::RandomSource;
use std::rt::{Clock, Env};
use std::thread::Threads;

fn main(rt: HostRuntime) -> Result<()> {
    for word in std::env::args(&rt)?.skip(1) {
        let mut input = StdSource::new(rt.stdin());
        match word.as_str() {
            "crew" => measure_input(&rt, &mut input, true)?,
            "hire" => measure_input(&rt, &mut input, false)?,
            _ => println!(rt; "there is no bench `{word}`: crew or hire")?,
        }
    }
    Ok(())
}

// Measures the script that an input has left.
fn measure_input<R: Clock + Print + AllocGlobal + RandomSource + Threads + Sync, S: Source>(
    rt: &R,
    input: &mut S,
    runs: bool,
) -> Result<()> {
    let hashers = RandomState::new(rt)?;
    let script = input_script(rt.alloc(), input)?;
    let measured = measure(rt, hashers, &script, runs);
    drop(script);
    measured
}
