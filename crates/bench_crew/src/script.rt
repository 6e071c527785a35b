//! The script of an input.
ghost use Rattle.std.specs.Prelude.{IfOk};
ghost use Rattle.cal_script.specs.Reading.{IsValidScript};
ghost use Rattle.cal_script.specs.Valid.{IsRunnable};

use anyhow::Result;
use cal_base::{Source, read_all};
use cal_script::{Script, read_script};
use cal_valid::valid_script_law;
use std::alloc::Global;

/// The most bytes that an input may have.
const LIMIT: u64 = 1 << 28;

/// The script that an input's bytes mean, which can be run.
pub fn input_script<S: Source>(alloc: Global, input: &mut S) -> Result<Script>
    ensures { IfOk result IsRunnable }
{
    let bytes = read_all(alloc, input, LIMIT)?;
    let script = script_of(alloc, bytes.as_slice());
    drop(bytes);
    script
}

/// The script that bytes mean, which can be run.
fn script_of(alloc: Global, bytes: &[u8]) -> Result<Script>
    ensures valid { IfOk result IsValidScript }
    ensures runnable { IfOk result IsRunnable }
{
    valid_script_law();
    let script = read_script(alloc, bytes)?;
    Ok(script)
}
