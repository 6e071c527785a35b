//! A clock over the machine's.
ghost use Rattle.std.specs.Prelude.{◌≡◌, ◌<◌, ◌≤◌, ◌^◌, IfOk, OnErr};
ghost use Rattle.std.specs.Duration.{as_nanos};

use crate::Clock;
use std::time::Duration;
use std::{io, time};

/// A clock over one of std, in nanoseconds from a start of its own. It tells nothing of its
/// readings.
#[derive(Drop)]
pub struct StdClock<C> {
    clock: C,
    last: u64,
}

impl<C: time::Clock + Drop> StdClock<C> {
    ghost use Rattle.std.specs.Prelude.{◌≡◌};
    ghost use Rattle.cal_base.specs.Standard.{clock_of};

    /// A clock over this one, which gave no reading.
    pub fn new(clock: C) -> Self
        ensures { clock_of result ≡ clock }
    {
        StdClock { clock, last: 0 }
    }
}

impl<C: time::Clock + Drop> Clock for StdClock<C> {
    ghost use Rattle.std.specs.Prelude.{None};

    ghost given = { λ _. None };

    fn now(&mut self) -> u64 {
        self.last = nanoseconds(self.clock.monotonic(), self.last);
        self.last
    }
}

/// What a clock of std read, or the last reading where it failed or read more than 64 bits hold.
fn nanoseconds(read: io::Result<Duration>, last: u64) -> u64
    ensures read { IfOk read (λ since. as_nanos since < 2 ^ 64 → result ≡ as_nanos since) }
    ensures late { IfOk read (λ since. 2 ^ 64 ≤ as_nanos since → result ≡ last) }
    ensures failed { OnErr read (result ≡ last) }
{
    match read {
        Ok(since) => u64::try_from(since.as_nanos()).unwrap_or(last),
        Err(_) => last,
    }
}
