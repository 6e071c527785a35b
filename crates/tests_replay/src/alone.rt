//! Runs of one thread, whose journals are known in advance.
ghost use Rattle.cal_script.specs.Valid.{IsRunnable};

use crate::runs::{is_text, run};
use crate::scripts::{clocks_of, runnable};
use cal_base::{Clock, MemClock};
use cal_run::plain_journal;
use cal_script::Script;
use std::alloc::Global;
use std::hash::RandomState;
use std::test::Fail;
use std::thread::Threads;

/// Each form of line, accepted and refused, on a channel with the timer and a trace, and on one
/// that aggregates by function. The phase is the process's, functions and loops the thread's own.
const FORMS: &str = "attribute phase string 268\nattribute function string 276\n\
    attribute loop string 276\nchannel t timer,trace\nchannel p aggregate\nkey function\n\
    thread\nset phase init\nset phase work\nbegin phase inner\nbegin function main\n\
    set loop first\nset loop second\nend function\ntick 5\nsnapshot\nend loop\nend phase\n\
    end phase\nend phase\nsnapshot\nflush p\nend function\nend function\nset function other\n\
    tick 2\nsnapshot\n";

/// Its only journal by the script's clock.
const FORMED: &str = "journal script\nop 0 1\nop 0 2\nop 0 3\nop 0 11\nop 0 12\nop 0 13\n\
    start 0 0\nline 0 1 done 1 -\nline 0 2 done 2 -\nline 0 3 done 3 -\nline 0 4 done 3 -\n\
    line 0 5 done 3 -\nline 0 6 done 3 -\nline 0 7 mismatch:2 3 -\nline 0 8 done 3 -\n\
    line 0 9 done 3 5\nline 0 10 done 3 -\nline 0 11 done 4 -\nline 0 12 done 5 -\n\
    line 0 13 notopen 6 -\nline 0 14 done 6 5\nline 0 15 merged 6 -\nline 0 16 done 6 -\n\
    line 0 17 notopen 6 -\nline 0 18 done 6 -\nline 0 19 done 6 -\nline 0 20 done 6 7\nend\n";

/// Two snapshots with the timer.
const TIMED: &str = "attribute function string 276\nchannel t timer,trace\nthread\nsnapshot\n\
    begin function main\nsnapshot\n";

/// Its journal by a clock that shows 10, 13 and 19.
const READINGS: &str = "journal real\nstart 0 10\nline 0 1 done 0 13\nline 0 2 done 0 -\n\
    line 0 3 done 0 19\nend\n";

/// Whether a run by these clocks has this journal.
fn runs_as<R: Threads + Sync>(
    rt: &R,
    alloc: Global,
    hashers: RandomState,
    text: &str,
    real: bool,
    clocks: &mut Vec<MemClock>,
    expected: &str,
) -> Result<bool, Fail> {
    let script = runnable(alloc, text)?;
    let journal = run(rt, alloc, hashers, &script, real, clocks);
    drop(script);
    match journal {
        Some(journal) => Ok(is_text(alloc, &journal, expected)),
        None => Ok(false),
    }
}

/// Whether this is the plain journal of a script.
fn is_plain(alloc: Global, script: &Script, expected: &str) -> bool
    requires { IsRunnable script.now }
{
    match plain_journal(alloc, script) {
        Ok(plain) => is_text(alloc, &plain, expected),
        Err(_) => false,
    }
}

/// The next reading of the only clock.
fn next_reading(clocks: &mut Vec<MemClock>) -> Option<u64> {
    match clocks.as_mut_slice().first_mut() {
        Some(clock) => Some(clock.now()),
        None => None,
    }
}

#[test]
fn a_thread_alone_leaves_the_journal_of_its_script(rt: HostRuntime) -> Result<(), Fail> {
    let mut clocks = clocks_of(rt.alloc(), 1, &[7, 8])?;
    let hashers = RandomState::new(&rt)?;
    let ran = runs_as(&rt, rt.alloc(), hashers, FORMS, false, &mut clocks, FORMED);
    let reading = next_reading(&mut clocks);
    drop(clocks);
    assert!(rt; ran?, "each line has its reply, and the script's time");
    assert!(rt; reading == Some(7), "the clock wasn't asked");
    Ok(())
}

#[test]
fn that_journal_is_the_plain_one(rt: HostRuntime) -> Result<(), Fail> {
    let script = runnable(rt.alloc(), FORMS)?;
    let plain = is_plain(rt.alloc(), &script, FORMED);
    drop(script);
    assert!(rt; plain);
    Ok(())
}

#[test]
fn readings_are_noted_as_the_clock_shows_them(rt: HostRuntime) -> Result<(), Fail> {
    let mut clocks = clocks_of(rt.alloc(), 1, &[10, 13, 19, 20, 21])?;
    let hashers = RandomState::new(&rt)?;
    let ran = runs_as(&rt, rt.alloc(), hashers, TIMED, true, &mut clocks, READINGS);
    let reading = next_reading(&mut clocks);
    drop(clocks);
    assert!(rt;
        ran?,
        "each line that takes a reading has the clock's next one"
    );
    assert!(rt;
        reading == Some(20),
        "the clock was asked for no further one"
    );
    Ok(())
}
