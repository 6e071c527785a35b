//! Clocks and gates, with ample memory and over the machine's.
use cal_base::{Clock, Gate, MemClock, OpenGate, StdClock};
use cal_value::Seq;
use std::alloc::{AllocError, Global};
use std::io::ErrorKind;
use std::time::Duration;
use std::{io, time};

/// A clock that may be moved to a thread, which leaves it for good.
fn sent<K: Clock + Send + Drop>(clock: K) -> K {
    clock
}

/// A gate that many threads may pass.
fn shared<G: Gate + Sync>(gate: &G) -> &G {
    gate
}

/// The first four readings of a clock over such a list.
fn four(alloc: Global, readings: &[u64]) -> Result<[u64; 4], AllocError> {
    let readings = Seq::from_vec(readings.to_vec(alloc)?);
    let mut clock = sent(MemClock::new(readings));
    Ok([clock.now(), clock.now(), clock.now(), clock.now()])
}

#[test]
fn a_clock_in_memory_repeats_its_last_reading(rt: HostRuntime) {
    assert!(rt; four(rt.alloc(), &[100, 90, 95]) == Ok([100, 90, 95, 95]));
    assert!(rt; four(rt.alloc(), &[7]) == Ok([7, 7, 7, 7]));
    assert!(rt; four(rt.alloc(), &[]) == Ok([0, 0, 0, 0]));
}

#[test]
fn an_open_gate_holds_nobody(rt: HostRuntime) {
    shared(&OpenGate).pass(0, 1);
}

/// A clock of std that reads so many seconds, or fails where there is no number.
#[derive(Drop)]
struct Reads(Option<u64>);

impl time::Clock for Reads {
    fn monotonic(&self) -> io::Result<Duration> {
        match self.0 {
            Some(seconds) => Ok(Duration::from_secs(seconds)),
            None => Err(io::Error::from(ErrorKind::Other)),
        }
    }

    fn since_1970(&self) -> io::Result<Duration> {
        self.monotonic()
    }
}

/// What a clock over one that reads this gives.
fn reading_of(seconds: Option<u64>) -> u64 {
    let reads = Reads(seconds);
    StdClock::new(&reads).now()
}

#[test]
fn the_machines_clock_reads_nanoseconds_and_goes_on(rt: HostRuntime) {
    assert!(rt; reading_of(Some(3)) == 3_000_000_000);
    assert!(rt; reading_of(None) == 0 && reading_of(Some(18_446_744_074)) == 0);
    let mut clock = sent(StdClock::new(&rt));
    let before = clock.now();
    assert!(rt; 0 < before && before <= clock.now());
}
