//! Times parts of the program: `bench values`, `rows`, `tree`, `table`, `write` and `line`.
//!
//! With no word it does nothing and writes nothing, as the gate runs it. What is timed is proved to
//! be what it says; of the times nothing is promised.
#![tactic(auto)]

mod copying;
mod line;
mod plain;
mod plain_table;
mod records;
mod rows;
mod table;
mod tree;
mod values;
mod write;

use anyhow::Result;
use std::random::RandomSource;
use std::rt::{Clock, Env};
use std::thread::Threads;

fn measure<R>(rt: &R, word: &str) -> Result<()>
where
    R: Clock + Print + AllocGlobal + RandomSource + Threads + Sync,
{
    match word {
        "values" => values::measure(rt),
        "rows" => rows::measure(rt),
        "tree" => tree::measure(rt),
        "table" => table::measure(rt),
        "write" => write::measure(rt),
        "line" => line::measure(rt),
        _ => refuse(rt, word),
    }
}

fn refuse(rt: &impl Print, word: &str) -> Result<()> {
    println!(rt; "there is no bench `{word}`: values, rows, tree, table, write or line")?;
    Ok(())
}

fn main(rt: HostRuntime) -> Result<()> {
    for word in std::env::args(&rt)?.skip(1) {
        measure(&rt, word.as_str())?;
    }
    Ok(())
}
