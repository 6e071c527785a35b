//! Scripts that can be run, journals, and clocks for threads.
ghost use Rattle.std.specs.Prelude.{IfOk};
ghost use Rattle.cal_script.specs.Reading.{IsValidScript, Means};
ghost use Rattle.cal_script.specs.Valid.{IsRunnable};

use cal_base::MemClock;
use cal_journal::read_both;
use cal_script::{JournalText, Script, read_script};
use cal_valid::valid_script_law;
use cal_value::{OutOfMemory, Seq};
use std::alloc::Global;
use std::test::Fail;

/// The script that a text means.
fn script_of(alloc: Global, text: &str) -> Result<Script, Fail>
    ensures { IfOk result (Means text.now) }
{
    let script = read_script(alloc, text.as_bytes())?;
    Ok(script)
}

/// A valid script, which can be run.
pub(crate) fn runnable(alloc: Global, text: &str) -> Result<Script, Fail>
    ensures valid { IfOk result IsValidScript }
    ensures runnable { IfOk result IsRunnable }
{
    valid_script_law();
    let script = script_of(alloc, text)?;
    Ok(script)
}

/// A journal that stands behind nothing but an empty script.
pub(crate) fn journal_of(alloc: Global, text: &str) -> Option<JournalText> {
    match read_both(alloc, text.as_bytes()) {
        Ok((_, journal)) => journal,
        Err(_) => None,
    }
}

/// A clock of these readings.
fn clock_of(alloc: Global, readings: &[u64]) -> Result<MemClock, OutOfMemory> {
    let readings = Vec::from_slice(alloc, readings)?;
    Ok(MemClock::new(Seq::from_vec(readings)))
}

/// A clock of these readings for each of so many threads.
pub(crate) fn clocks_of(
    alloc: Global,
    threads: usize,
    readings: &[u64],
) -> Result<Vec<MemClock>, OutOfMemory> {
    let mut clocks = Vec::new(alloc);
    for _thread in 0..threads {
        clocks.push(clock_of(alloc, readings)?)?;
    }
    Ok(clocks)
}
