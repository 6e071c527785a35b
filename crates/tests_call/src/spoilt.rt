//! Journals with one line left out or doubled, or two neighbours exchanged: the first rule that
//! each breaks, and its line.

use crate::rows::refused_otherwise;
use cal_value::{OutOfMemory, Text};
use std::alloc::Global;
use std::random::RandomSource;
use std::thread::Threads;

/// Two threads that share a phase.
const SCRIPT: &str = "\
attribute phase string 268
channel t trace
thread
begin phase init
snapshot
thread
end phase
snapshot
";

/// Its journal, in which the second thread ends what the first began.
const JOURNAL: [&str; 10] = [
    "journal script\n",
    "op 0 1\n",
    "op 1 1\n",
    "start 0 -\n",
    "line 0 1 done 1 -\n",
    "line 0 2 done 1 -\n",
    "start 1 -\n",
    "line 1 1 done 2 -\n",
    "line 1 2 done 2 -\n",
    "end\n",
];

/// What is done to the line at a place.
#[derive(Clone, Copy, Debug)]
enum Change {
    LeftOut,
    Doubled,
    /// It and the next one stand the other way round.
    Exchanged,
}

/// What is told where the line at each place is left out. Without the first there is no journal.
const LEFT_OUT: [&str; 10] = [
    "caliper: line 9: UnknownWord\n",
    "caliper: line 17: OpOrder\n",
    "caliper: line 17: OpOrder\n",
    "caliper: line 12: Form\n",
    "caliper: line 13: Shape\n",
    "caliper: line 14: Shape\n",
    "caliper: line 15: Shape\n",
    "caliper: line 16: Shape\n",
    "caliper: line 17: Shape\n",
    "caliper: line 18: Cut\n",
];

/// What is told where a line below the first is doubled.
const DOUBLED: [&str; 9] = [
    "caliper: line 11: OpOrder\n",
    "caliper: line 12: OpOrder\n",
    "caliper: line 13: Shape\n",
    "caliper: line 14: Shape\n",
    "caliper: line 15: Shape\n",
    "caliper: line 16: Shape\n",
    "caliper: line 17: Shape\n",
    "caliper: line 18: Shape\n",
    "caliper: line 19: After\n",
];

/// What is told where such a line and the next one are exchanged.
const EXCHANGED: [&str; 8] = [
    "caliper: line 13: SeenOwn\n",
    "caliper: line 12: Form\n",
    "caliper: line 12: Form\n",
    "caliper: line 13: Shape\n",
    "caliper: line 14: Shape\n",
    "caliper: line 15: Shape\n",
    "caliper: line 16: Shape\n",
    "caliper: line 18: After\n",
];

fn lines() -> &'static [&'static str] {
    &JOURNAL
}

fn left_out() -> &'static [&'static str] {
    &LEFT_OUT
}

fn doubled() -> &'static [&'static str] {
    &DOUBLED
}

fn exchanged() -> &'static [&'static str] {
    &EXCHANGED
}

/// The place of the line that stands at a place, where the line at another is changed; none where
/// it is left out.
fn source_of(change: Change, changed: usize, place: usize) -> Option<usize> {
    match change {
        Change::LeftOut if place == changed => None,
        Change::Exchanged if place == changed => Some(place.saturating_add(1)),
        Change::Exchanged if place == changed.saturating_add(1) => Some(changed),
        _ => Some(place),
    }
}

/// Puts the line at a place behind a text, and once more where it is doubled.
fn put_line(
    text: &mut Text,
    change: Change,
    changed: usize,
    place: usize,
) -> Result<(), OutOfMemory> {
    let Some(source) = source_of(change, changed, place) else {
        return Ok(());
    };
    let line = lines().get(source).copied().unwrap_or("");
    text.push_str(line)?;
    if matches!(change, Change::Doubled) && place == changed {
        text.push_str(line)?;
    }
    Ok(())
}

/// Puts all lines of the changed journal behind a text.
fn put_lines(text: &mut Text, change: Change, changed: usize) -> Result<(), OutOfMemory> {
    for place in 0..JOURNAL.len() {
        put_line(text, change, changed, place)?;
    }
    Ok(())
}

/// The script with the changed journal behind it.
fn text_of(alloc: Global, change: Change, changed: usize) -> Result<Text, OutOfMemory> {
    let mut text = Text::from_str(alloc, SCRIPT)?;
    put_lines(&mut text, change, changed)?;
    Ok(text)
}

/// Whether this is told of it.
fn is_told<R: Threads + Sync + RandomSource>(
    rt: &R,
    alloc: Global,
    change: Change,
    changed: usize,
    told: &str,
) -> bool {
    let Ok(text) = text_of(alloc, change, changed) else {
        return false;
    };
    let found = refused_otherwise(rt, alloc, &["serial"], text.as_str(), told, 3);
    drop(text);
    found == Some("")
}

/// The first place, of those from one on, whose change isn't told so.
fn wrong_place<R: Threads + Sync + RandomSource>(
    rt: &R,
    alloc: Global,
    change: Change,
    from: usize,
    rows: &[&str],
) -> Option<usize> {
    for (place, told) in rows.iter().enumerate() {
        let changed = place.saturating_add(from);
        if !is_told(rt, alloc, change, changed, told) {
            return Some(changed);
        }
    }
    None
}

#[test]
fn a_line_that_is_left_out_is_missed(rt: HostRuntime) {
    let wrong = wrong_place(&rt, rt.alloc(), Change::LeftOut, 0, left_out());
    assert_eq!(rt; wrong, None);
}

#[test]
fn a_line_that_is_doubled_is_refused(rt: HostRuntime) {
    let wrong = wrong_place(&rt, rt.alloc(), Change::Doubled, 1, doubled());
    assert_eq!(rt; wrong, None);
}

#[test]
fn neighbours_that_are_exchanged_are_refused(rt: HostRuntime) {
    let wrong = wrong_place(&rt, rt.alloc(), Change::Exchanged, 1, exchanged());
    assert_eq!(rt; wrong, None);
}
