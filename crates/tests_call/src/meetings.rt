//! Threads that meet: `replay` and `journal` of scripts that gates hold, and `serial` of their
//! journals.

use crate::calls::{Streams, call, status_of, streams_of};
use cal_base::{Gate, OpenGate};
use cal_call::Outcome;
use cal_journal::print_journal;
use cal_script::Journal;
use cal_value::{OutOfMemory, Text};
use std::alloc::Global;
use std::random::RandomSource;
use std::sync::atomic::{AtomicU64, Ordering};
use std::thread::Threads;

/// How often a thread that is held looks, at most.
pub(crate) const MOST_TURNS: u64 = 1_000_000_000;

/// Room for all that a run of these tests writes.
pub(crate) const ROOM: u64 = 400_000;

/// A gate that holds a thread before its first line until a word is high enough, and adds to the
/// word at the lines that are waited for.
#[derive(Drop)]
struct Held {
    come: AtomicU64,
    turns: AtomicU64,
    passed: AtomicU64,
    /// Whether both threads are held until both have come to their first line, or else the first
    /// until the second has come to its second line.
    both: bool,
}

impl Held {
    fn new(both: bool) -> Held {
        Held {
            come: AtomicU64::new(0),
            turns: AtomicU64::new(0),
            passed: AtomicU64::new(0),
            both,
        }
    }

    /// Whether a thread comes where it is waited for.
    fn comes(&self, thread: u32, line: u32) -> bool {
        if self.both {
            line == 1
        } else {
            thread == 1 && line == 2
        }
    }

    /// Waits, but not for ever, until so many have come.
    fn wait(&self, for_so_many: u64) {
        for _turn in 0..MOST_TURNS {
            if self.come.load(Ordering::SeqCst) >= for_so_many {
                return;
            }
            self.turns.fetch_add(1, Ordering::SeqCst);
        }
    }
}

impl Gate for Held {
    fn pass(&self, thread: u32, line: u32) {
        self.passed.fetch_add(1, Ordering::SeqCst);
        if self.comes(thread, line) {
            self.come.fetch_add(1, Ordering::SeqCst);
        }
        if self.both && line == 1 {
            self.wait(2);
        } else if thread == 0 && line == 1 {
            self.wait(1);
        }
    }
}

/// Two threads of one line.
const TWO: &str = "thread\nsnapshot\nthread\nsnapshot\n";

/// The first thread opens a phase in which the second then opens another.
const PHASES: &str = "\
attribute phase string 268
channel t trace
thread
snapshot
begin phase a
thread
begin phase b
tick 0
";

/// Its text where the second thread was first.
const PHASES_TEXT: &str = "\
__rec=node,id=12,attr=10,data=268,parent=3
__rec=node,id=13,attr=8,data=phase,parent=12
__rec=node,id=14,attr=13,data=b
__rec=ctx,ref=14
";

/// Two threads of which each may close what the other opened, with a profile that both flush.
const CROSSED: &str = "\
attribute phase string 268
attribute function string 276
channel t event,timer,trace
channel p aggregate
key phase
thread
begin phase one
begin function main
snapshot
flush p
end phase
snapshot
thread
set phase two
tick 3
snapshot
flush p
end phase
snapshot
end phase
";

/// The status and the operations of a run: of each its thread and its line.
#[derive(Clone, Copy, Debug, PartialEq, Eq)]
struct Order {
    status: u8,
    first: (u32, u32),
    second: (u32, u32),
}

/// The two operations of a journal.
fn two_of(status: u8, journal: &Journal) -> Option<Order> {
    match journal.ops.as_slice() {
        [first, second] => Some(Order {
            status,
            first: (first.thread, first.line),
            second: (second.thread, second.line),
        }),
        _ => None,
    }
}

/// Those of a call's outcome.
fn order_of(alloc: Global, outcome: Outcome) -> Option<Order> {
    let status = outcome.status;
    match outcome.journal.into_journal(alloc) {
        Ok(journal) => two_of(status, &journal),
        Err(_) => None,
    }
}

/// Those of `replay` over streams, whose threads pass a gate.
fn replayed<R: Threads + Sync + RandomSource>(
    rt: &R,
    alloc: Global,
    streams: &mut Streams,
    gate: &Held,
) -> Option<Order> {
    let outcome = call(rt, alloc, &["replay"], streams, gate)?;
    order_of(alloc, outcome)
}

/// Whether those of a run of a script are these, and its text is this.
fn runs_as<R: Threads + Sync + RandomSource>(
    rt: &R,
    alloc: Global,
    script: &str,
    gate: &Held,
    order: Order,
    text: &str,
) -> bool {
    let Ok(mut streams) = streams_of(alloc, script, 1000) else {
        return false;
    };
    let found = replayed(rt, alloc, &mut streams, gate);
    let is_written = streams.output.bytes() == text.as_bytes();
    drop(streams);
    found == Some(order) && is_written
}

/// The status of `replay` of a script, whose threads pass a gate.
fn status_held<R: Threads + Sync + RandomSource>(
    rt: &R,
    alloc: Global,
    script: &str,
    gate: &Held,
) -> Option<u8> {
    let mut streams = streams_of(alloc, script, 1000).ok()?;
    let status = status_of(rt, alloc, &["replay"], &mut streams, gate);
    drop(streams);
    status
}

#[test]
fn threads_run_side_by_side(rt: HostRuntime) {
    let gate = Held::new(true);
    let status = status_held(&rt, rt.alloc(), TWO, &gate);
    let passed = gate.passed.load(Ordering::SeqCst);
    let turns = gate.turns.load(Ordering::SeqCst);
    assert_eq!(rt; status, Some(0));
    assert_eq!(rt; passed, 2);
    assert!(rt; turns < MOST_TURNS, "each waited for the other");
}

#[test]
fn the_order_of_a_run_is_the_one_that_happened(rt: HostRuntime) {
    let gate = Held::new(false);
    let order = Order {
        status: 0,
        first: (1, 1),
        second: (0, 2),
    };
    let is_so = runs_as(&rt, rt.alloc(), PHASES, &gate, order, PHASES_TEXT);
    let turns = gate.turns.load(Ordering::SeqCst);
    assert!(rt; turns < MOST_TURNS);
    assert!(rt; is_so, "the second thread was first");
}

/// A script with a journal behind it.
pub(crate) fn behind(alloc: Global, script: &str, journal: &str) -> Result<Text, OutOfMemory> {
    let mut both = Text::from_str(alloc, script)?;
    both.push_str(journal)?;
    Ok(both)
}

/// The status of a word over streams.
fn status_over<R: Threads + Sync + RandomSource>(
    rt: &R,
    alloc: Global,
    word: &str,
    streams: &mut Streams,
) -> Option<u8> {
    status_of(rt, alloc, &[word], streams, &OpenGate)
}

/// Whether two calls wrote and told the same.
fn same(left: &Streams, right: &Streams) -> bool {
    left.output.bytes() == right.output.bytes() && left.errors.bytes() == right.errors.bytes()
}

/// Whether `serial` of an input ends with this status, and leaves what these streams have.
pub(crate) fn is_written_again<R: Threads + Sync + RandomSource>(
    rt: &R,
    alloc: Global,
    input: &str,
    status: u8,
    wanted: &Streams,
) -> bool {
    let Ok(mut streams) = streams_of(alloc, input, ROOM) else {
        return false;
    };
    let found = status_over(rt, alloc, "serial", &mut streams);
    let is_same = same(&streams, wanted);
    drop(streams);
    found == Some(status) && is_same
}

/// The text of a journal behind a script.
fn text_behind(alloc: Global, script: &str, journal: &Journal) -> Result<Text, OutOfMemory> {
    let text = print_journal(alloc, journal)?;
    let both = behind(alloc, script, text.as_str());
    drop(text);
    both
}

/// The status of an outcome, and the text of its journal behind a script.
pub(crate) fn told_of(alloc: Global, script: &str, outcome: Outcome) -> Option<(u8, Text)> {
    let status = outcome.status;
    match outcome.journal.into_journal(alloc) {
        Ok(journal) => Some((status, text_behind(alloc, script, &journal).ok()?)),
        Err(_) => None,
    }
}

/// Whether `replay` over these streams leaves a journal of which `serial` writes and tells the
/// same.
fn is_said_again<R: Threads + Sync + RandomSource>(
    rt: &R,
    alloc: Global,
    script: &str,
    streams: &mut Streams,
) -> Option<bool> {
    let outcome = call(rt, alloc, &["replay"], streams, &OpenGate)?;
    let (status, both) = told_of(alloc, script, outcome)?;
    let said = is_written_again(rt, alloc, both.as_str(), status, streams);
    drop(both);
    Some(said)
}

/// Whether a run of a script does.
fn run_is_said_again<R: Threads + Sync + RandomSource>(
    rt: &R,
    alloc: Global,
    script: &str,
) -> Option<bool> {
    let mut streams = streams_of(alloc, script, ROOM).ok()?;
    let said = is_said_again(rt, alloc, script, &mut streams);
    drop(streams);
    said
}

#[test]
fn a_run_is_told_again_by_its_journal(rt: HostRuntime) {
    for round in 0..100u32 {
        let said = run_is_said_again(&rt, rt.alloc(), CROSSED);
        assert_eq!(rt; said, Some(true), "round {round}");
    }
}

/// Whether `serial` of an input ends with this status, and tells what these streams have.
fn is_told_again<R: Threads + Sync + RandomSource>(
    rt: &R,
    alloc: Global,
    input: &str,
    status: u8,
    wanted: &Streams,
) -> bool {
    let Ok(mut streams) = streams_of(alloc, input, ROOM) else {
        return false;
    };
    let found = status_over(rt, alloc, "serial", &mut streams);
    let is_same = streams.errors.bytes() == wanted.errors.bytes();
    drop(streams);
    found == Some(status) && is_same
}

/// Whether what `journal` over these streams writes is a journal of which `serial` tells the same.
fn is_lawful<R: Threads + Sync + RandomSource>(
    rt: &R,
    alloc: Global,
    script: &str,
    streams: &mut Streams,
) -> Option<bool> {
    let status = status_over(rt, alloc, "journal", streams)?;
    let written = std::str::from_utf8(streams.output.bytes()).unwrap_or("");
    let both = behind(alloc, script, written).ok()?;
    let told = is_told_again(rt, alloc, both.as_str(), status, streams);
    drop(both);
    Some(told)
}

/// Whether that of a script is.
fn written_is_lawful<R: Threads + Sync + RandomSource>(
    rt: &R,
    alloc: Global,
    script: &str,
) -> Option<bool> {
    let mut streams = streams_of(alloc, script, ROOM).ok()?;
    let lawful = is_lawful(rt, alloc, script, &mut streams);
    drop(streams);
    lawful
}

#[test]
fn a_written_journal_is_lawful(rt: HostRuntime) {
    for round in 0..100u32 {
        let lawful = written_is_lawful(&rt, rt.alloc(), CROSSED);
        assert_eq!(rt; lawful, Some(true), "round {round}");
    }
}
