//! A run by a real clock.

use crate::runs::{has_journal, has_text, run_by};
use crate::scripts::{clocks_of, runnable};
use cal_base::{Clock, MemClock};
use cal_whole::Ran;
use std::alloc::Global;
use std::hash::RandomState;
use std::test::Fail;
use std::thread::Threads;

/// A thread whose two events are timed.
const TIMED: &str = "attribute function string 276\nchannel t event,timer,trace\nthread\n\
    begin function main\nend function\n";

/// Its journal by a clock that shows 100, 90 and 95.
const READINGS: &str = "journal real\nstart 0 100\nline 0 1 done 0 90\nline 0 2 done 0 95\nend\n";

const TEXT: &str = "__rec=node,id=12,attr=10,data=65,parent=3\n\
    __rec=node,id=13,attr=8,data=event.begin#function,parent=12\n\
    __rec=node,id=14,attr=10,data=65,parent=2\n\
    __rec=node,id=15,attr=8,data=time.duration.ns,parent=14\n\
    __rec=ctx,attr=13=15,data=main=0\n\
    __rec=node,id=16,attr=10,data=276,parent=3\n\
    __rec=node,id=17,attr=8,data=function,parent=16\n\
    __rec=node,id=18,attr=17,data=main\n\
    __rec=node,id=19,attr=8,data=event.end#function,parent=12\n\
    __rec=node,id=20,attr=8,data=time.inclusive.duration.ns,parent=14\n\
    __rec=ctx,ref=18,attr=19=15=20,data=main=5=5\n";

/// Whether a run leaves these records and this journal, with one node and two snapshots.
fn is_timed(alloc: Global, ran: &Ran) -> bool {
    ran.nodes == 1
        && ran.snapshots == 2
        && ran.groups == 0
        && has_journal(alloc, &ran.journal, READINGS)
        && has_text(alloc, &ran.records, TEXT)
}

/// Whether the run by these clocks does.
fn runs_timed<R: Threads + Sync>(
    rt: &R,
    alloc: Global,
    hashers: RandomState,
    clocks: &mut Vec<MemClock>,
) -> Result<bool, Fail> {
    let script = runnable(alloc, TIMED)?;
    let ran = run_by(rt, alloc, hashers, &script, true, clocks);
    drop(script);
    match ran {
        Some(ran) => Ok(is_timed(alloc, &ran)),
        None => Ok(false),
    }
}

/// The next reading of the only clock.
fn next_reading(clocks: &mut Vec<MemClock>) -> Option<u64> {
    match clocks.as_mut_slice().first_mut() {
        Some(clock) => Some(clock.now()),
        None => None,
    }
}

#[test]
fn readings_are_those_of_the_clock_that_was_lent(rt: HostRuntime) -> Result<(), Fail> {
    let hashers = RandomState::new(&rt)?;
    let mut clocks = clocks_of(rt.alloc(), 1, &[100, 90, 95, 96])?;
    let timed = runs_timed(&rt, rt.alloc(), hashers, &mut clocks);
    let reading = next_reading(&mut clocks);
    drop(clocks);
    assert!(rt; timed?, "each event has the clock's next reading");
    assert!(rt;
        reading == Some(96),
        "the clock was asked for no further one"
    );
    Ok(())
}
