ghost use Rattle.std.specs.Prelude.{◌≡◌, ◌<◌, ◌≤◌, ◌+◌, ◌↔◌, ◌∷◌, [], ◌++◌, length, map, zip};
ghost use Rattle.std.specs.Prelude.{All, IfOk, IsTrue, List, Some, slice_get};
ghost use Rattle.cal_lawful.specs.Broken.{Row, all_rows};
ghost use Rattle.cal_lawful.specs.Broken.{Noted};
ghost use Rattle.cal_lawful.specs.Checking.{IsChannel, SeenTell, merged_channel, next_first, noted};
ghost use Rattle.cal_run.specs.Lawful.{HasShape, SeenOwn, SeesOwn, noted_from};
ghost use Rattle.cal_run.specs.Steps.{ThreadState, at_start};
ghost use Rattle.cal_script.specs.Valid.{IsPlaced, IsRunnable};

use crate::merged::Merged;
use crate::rows::noted_lines;
use cal_run::{is_process_line, noted_at};
use cal_script::{Journal, Line, LineNote, Placed, Script};
use cal_value::OutOfMemory;
use std::alloc::Global;

/// What the rows so far say of the rules on what lines have seen: how many rows they are, the first
/// of them that breaks each rule, and the flushes that were merged.
#[derive(Drop)]
pub(crate) struct SeenTests {
    pub row: usize,
    pub falls: Option<usize>,
    pub past: Option<usize>,
    pub own: Option<usize>,
    pub merged: Merged,
}

/// Where a line stands: its thread, its number in it, and what the line before it had seen.
#[derive(Clone, Copy, Debug, PartialEq, Eq)]
pub(crate) struct Spot {
    pub thread: usize,
    pub number: usize,
    pub before: u64,
}

/// Tests the rules SeenFalls, SeenPast and SeenOwn on all rows.
pub(crate) fn test_seen(
    alloc: Global,
    script: &Script,
    journal: &Journal,
) -> Result<SeenTests, OutOfMemory>
    requires runnable { IsRunnable script.now }
    requires shape { HasShape script.now journal.now }
    ensures { IfOk result (λ tests.
        SeenTell script.now journal.now tests (all_rows script.now journal.now)) }
{
    let threads = script.threads.as_slice();
    let mut tests = SeenTests {
        row: 0,
        falls: None,
        past: None,
        own: None,
        merged: Merged::new(alloc)?,
    };
    for thread in 0..threads.len() {
        let (lines, notes) = noted_lines(script, journal, thread);
        tests.row += 1;
        test_thread(script, journal, thread, lines, notes, &mut tests);
    }
    Ok(tests)
}

fn test_thread(
    script: &Script,
    journal: &Journal,
    thread: usize,
    lines: &[Line],
    notes: &[LineNote],
    tests: &mut SeenTests,
)
    requires within { thread < 64 }
    requires channels { length script.now.channels ≤ 16 }
    requires placed { All (IsPlaced script.now.attributes script.now.channels script.now.values)
        lines.now }
    requires noted { length notes.now ≡ length lines.now }
    requires room { tests.old.row + length lines.now ≤ 2000000 }
    ensures told { (front : List Row) → SeenTell script.now journal.now tests.old front
        → SeenTell script.now journal.now tests.new (front ++ map Noted
        (noted_from script.now journal.now.ops thread 1 0 at_start (zip lines.now notes.now))) }
    ensures row { tests.new.row ≡ tests.old.row + length lines.now }
{
    let mut before = 0;
    for place in 0..lines.len() {
        let (line, note) = noted_at(lines, notes, place);
        let spot = Spot {
            thread,
            number: place + 1,
            before,
        };
        test_line(script, journal, spot, line, note, tests);
        before = note.seen;
    }
}

fn test_line(
    script: &Script,
    journal: &Journal,
    spot: Spot,
    line: Line,
    note: LineNote,
    tests: &mut SeenTests,
)
    requires within { spot.thread < 64 }
    requires channel { IsChannel (merged_channel line note.reply) }
    requires room { tests.old.row < 2000000 }
    ensures told { (front : List Row) (state : ThreadState)
        → SeenTell script.now journal.now tests.old front
        → SeenTell script.now journal.now tests.new
        (front ++ Noted (noted spot line note state) ∷ []) }
    ensures row { tests.new.row ≡ tests.old.row + 1 }
{
    let row = tests.row;
    let length = journal.ops.as_slice().len() as u64;
    tests.falls = first_of(tests.falls, row, spot.before <= note.seen);
    tests.past = first_of(tests.past, row, note.seen <= length);
    tests.own = first_of(
        tests.own,
        row,
        is_seen_own(script, journal, spot, line, note),
    );
    tests.merged.mark(spot.thread, line, note);
    tests.row = row + 1;
}

/// The first row that breaks a rule, with one row more.
pub(crate) fn first_of(first: Option<usize>, row: usize, kept: bool) -> Option<usize>
    ensures { result ≡ next_first first row kept }
{
    match first {
        Some(_) => first,
        None => { if kept { None } else { Some(row) } }
    }
}

fn is_seen_own(script: &Script, journal: &Journal, spot: Spot, line: Line, note: LineNote) -> bool
    ensures { (state : ThreadState)
        → (IsTrue result ↔ SeenOwn script.now journal.now (noted spot line note state)) }
{
    !is_process_line(script, line) || sees_own(script, journal, spot, line, note)
}

fn sees_own(script: &Script, journal: &Journal, spot: Spot, line: Line, note: LineNote) -> bool
    ensures { (state : ThreadState)
        → (IsTrue result ↔ SeesOwn script.now journal.now (noted spot line note state)) }
{
    let _ = script;
    let _ = line;
    if note.seen == 0 || note.seen <= spot.before {
        return false;
    }
    is_placed(journal.ops.as_slice(), note.seen - 1, spot)
}

/// Whether a line stands at a place of the history.
fn is_placed(ops: &[Placed], place: u64, spot: Spot) -> bool
    ensures { IsTrue result ↔ (slice_get ops.now place
        ≡ Some (record { thread = spot.thread; line = spot.number })) }
{
    match ops.get(place as usize) {
        None => false,
        Some(op) => op.thread as usize == spot.thread && op.line as usize == spot.number,
    }
}
