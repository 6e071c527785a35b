//! Clocks that a run by the script's time doesn't ask.
ghost use Rattle.std.specs.Prelude.{◌≡◌, IfOk, length};

use cal_base::MemClock;
use cal_value::{OutOfMemory, Seq};
use std::alloc::Global;

/// The most threads that a script may have.
const MOST_THREADS: u32 = 64;

/// A clock for each thread that a script may have.
pub fn clocks(alloc: Global) -> Result<Vec<MemClock>, OutOfMemory>
    ensures { IfOk result (λ clocks. length clocks.items ≡ 64) }
{
    let mut clocks = Vec::new(alloc);
    for _thread in 0..MOST_THREADS {
        clocks.push(MemClock::new(Seq::new(alloc)))?;
    }
    Ok(clocks)
}
