//! A phase of the process that two threads begin and end.
ghost use Rattle.cal_script.specs.Valid.{IsRunnable};

use crate::scripts::runnable;
use crate::walkers::{Row, Walk, walk_two};
use cal_script::{Reply, Script};
use cal_value::OutOfMemory;
use std::alloc::Global;
use std::test::Fail;

const SHARED: &str = "attribute phase string 268\nattribute function string 276\n\
    channel t trace\n\
    thread\nbegin phase init\nsnapshot\nbegin function main\nend phase\nend function\n\
    thread\nsnapshot\nend phase\nend function\nsnapshot\n";

/// The walk of a script, if it has two threads.
fn walked(alloc: Global, script: &Script, rows: &[Row]) -> Option<Result<Walk, OutOfMemory>>
    requires { IsRunnable script.now }
{
    if script.threads.len() == 2 {
        Some(walk_two(alloc, script, rows))
    } else {
        None
    }
}

/// The walk that finds each row right.
fn right(shared: bool) -> Option<Result<Walk, OutOfMemory>> {
    Some(Ok(Walk {
        wrong: None,
        shared,
    }))
}

/// A row whose line is accepted.
fn done(thread: u32, seen: u64, open: bool) -> Row {
    Row {
        thread,
        reply: Some(Reply::Done),
        seen,
        open,
    }
}

/// A row whose line finds nothing open.
fn not_open(thread: u32, seen: u64, open: bool) -> Row {
    Row {
        thread,
        reply: Some(Reply::NotOpen),
        seen,
        open,
    }
}

#[test]
fn a_snapshot_line_sees_the_phase_of_the_other_thread(rt: HostRuntime) -> Result<(), Fail> {
    let script = runnable(rt.alloc(), SHARED)?;
    let rows = [done(0, 1, true), done(1, 1, true)];
    let walk = walked(rt.alloc(), &script, &rows);
    drop(script);
    assert_eq!(rt; walk, right(true));
    Ok(())
}

#[test]
fn a_phase_is_ended_by_the_other_thread(rt: HostRuntime) -> Result<(), Fail> {
    let script = runnable(rt.alloc(), SHARED)?;
    let rows = [
        done(0, 1, true),
        done(1, 1, true),
        // thread 1 ends the phase, which thread 0 hasn't seen until it takes a snapshot
        done(1, 2, false),
        done(0, 2, false),
        // `begin function` looks at nothing; then the phase is ended once more
        done(0, 2, false),
        not_open(0, 3, false),
        done(0, 3, false),
        // thread 1 has no function open, and then sees the third operation
        not_open(1, 2, false),
        done(1, 3, false),
    ];
    let walk = walked(rt.alloc(), &script, &rows);
    drop(script);
    assert_eq!(rt; walk, right(false));
    Ok(())
}

#[test]
fn a_phase_is_ended_too_early(rt: HostRuntime) -> Result<(), Fail> {
    let script = runnable(rt.alloc(), SHARED)?;
    let rows = [
        done(1, 0, false),
        not_open(1, 1, false),
        done(0, 2, true),
        not_open(1, 1, false),
        done(1, 2, true),
    ];
    let walk = walked(rt.alloc(), &script, &rows);
    drop(script);
    assert_eq!(rt; walk, right(true));
    Ok(())
}
