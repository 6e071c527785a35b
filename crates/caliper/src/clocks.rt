//! The machine's clock, for each thread that a script may have.
ghost use Rattle.std.specs.Prelude.{◌≡◌, IfOk, length};

use cal_base::StdClock;
use cal_value::OutOfMemory;
use std::alloc::Global;
use std::time::Clock;

/// The most threads that a script may have.
const MOST_THREADS: u32 = 64;

/// A clock over the machine's for each thread that a script may have.
pub fn clocks_of<C: Clock>(alloc: Global, machine: &C) -> Result<Vec<StdClock<&C>>, OutOfMemory>
    ensures { IfOk result (λ clocks. length clocks.items ≡ 64) }
{
    let mut clocks = Vec::new(alloc);
    for _thread in 0..MOST_THREADS {
        clocks.push(StdClock::new(machine))?;
    }
    Ok(clocks)
}
