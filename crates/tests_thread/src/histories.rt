//! The history of two threads that share a phase.
ghost use Rattle.cal_script.specs.Valid.{IsRunnable};

use crate::ends::history_of_two;
use crate::scripts::runnable;
use cal_script::{Placed, Script};
use cal_value::{OutOfMemory, Seq};
use std::alloc::Global;
use std::test::Fail;

const SHARED: &str = "attribute phase string 268\nattribute function string 276\n\
    thread\nbegin phase init\nend phase\n\
    thread\nset phase solve\nbegin function main\n";

/// The history of a script, if it has two threads.
fn history(alloc: Global, script: &Script) -> Option<Result<Seq<Placed>, OutOfMemory>>
    requires { IsRunnable script.now }
{
    if script.threads.len() == 2 {
        Some(history_of_two(alloc, script))
    } else {
        None
    }
}

/// Whether a history was read, which is this one.
fn is_read(history: &Option<Result<Seq<Placed>, OutOfMemory>>, expected: &[Placed]) -> bool {
    match history {
        Some(Ok(history)) => history.as_slice() == expected,
        _ => false,
    }
}

/// A line that is placed in the history.
fn placed(thread: u32, line: u32) -> Placed {
    Placed { thread, line }
}

#[test]
fn the_history_is_whole_when_both_threads_have_ended(rt: HostRuntime) -> Result<(), Fail> {
    let script = runnable(rt.alloc(), SHARED)?;
    let history = history(rt.alloc(), &script);
    drop(script);
    let read = is_read(&history, &[placed(0, 1), placed(1, 1), placed(0, 2)]);
    drop(history);
    assert!(rt;
        read,
        "both threads' process lines stand there in the order in which they came"
    );
    Ok(())
}
