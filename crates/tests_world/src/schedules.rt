//! The events of journals.
ghost use Rattle.cal_script.specs.Valid.{IsRunnable};

use crate::scripts::{IN_TURN, SHARED, TOO_EARLY, journal_of, runnable};
use cal_lawful::{CoreEnd, check_journal};
use cal_script::{JournalText, Script};
use cal_seeds::Seeds;
use cal_world::{Event, schedule};
use std::alloc::Global;
use std::test::Fail;

/// Whether a journal is lawful and has these events.
fn has_events(
    alloc: Global,
    script: &Script,
    text: &JournalText,
    wanted: &[Event],
) -> Result<bool, CoreEnd>
    requires { IsRunnable script.now }
{
    check_journal(alloc, Seeds::fixed(), script, text)?;
    let events = schedule(alloc, script, &text.journal)?;
    Ok(events.as_slice() == wanted)
}

/// The same of a journal's text.
fn is_scheduled(alloc: Global, script: &Script, text: &str, wanted: &[Event]) -> bool
    requires { IsRunnable script.now }
{
    match journal_of(alloc, text) {
        Some(journal) => has_events(alloc, script, &journal, wanted).unwrap_or(false),
        None => false,
    }
}

#[test]
fn a_phase_is_begun_and_then_ended(rt: HostRuntime) -> Result<(), Fail> {
    let script = runnable(rt.alloc(), SHARED)?;
    let wanted = [
        Event::Place { thread: 0, line: 1 },
        Event::Node { thread: 0 },
        Event::Own { thread: 0, line: 1 },
        Event::Look { thread: 0, line: 2 },
        Event::Own { thread: 0, line: 2 },
        Event::Place { thread: 1, line: 1 },
        // the second thread takes in the phase that the first one began
        Event::Node { thread: 1 },
        Event::Own { thread: 1, line: 1 },
        Event::Look { thread: 1, line: 2 },
        Event::Own { thread: 1, line: 2 },
    ];
    let scheduled = is_scheduled(rt.alloc(), &script, IN_TURN, &wanted);
    drop(script);
    assert!(rt; scheduled);
    Ok(())
}

#[test]
fn a_phase_is_ended_too_early(rt: HostRuntime) -> Result<(), Fail> {
    let script = runnable(rt.alloc(), SHARED)?;
    let wanted = [
        Event::Place { thread: 1, line: 1 },
        Event::Own { thread: 1, line: 1 },
        Event::Look { thread: 1, line: 2 },
        Event::Own { thread: 1, line: 2 },
        Event::Place { thread: 0, line: 1 },
        Event::Node { thread: 0 },
        Event::Own { thread: 0, line: 1 },
        Event::Look { thread: 0, line: 2 },
        Event::Own { thread: 0, line: 2 },
    ];
    let scheduled = is_scheduled(rt.alloc(), &script, TOO_EARLY, &wanted);
    drop(script);
    assert!(rt; scheduled);
    Ok(())
}
