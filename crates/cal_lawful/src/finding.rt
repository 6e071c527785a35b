ghost use Rattle.std.specs.Prelude.{◌≡◌, ◌<◌, ◌≤◌, ◌+◌, ◌∷◌, [], ◌++◌, length, map, zip, All};
ghost use Rattle.std.specs.Prelude.{IfOk, List, OnOk, slice_index_or};
ghost use Rattle.cal_context.specs.Tree.{Grows};
ghost use Rattle.cal_lawful.specs.Broken.{Row, all_rows};
ghost use Rattle.cal_lawful.specs.Broken.{Noted, Start};
ghost use Rattle.cal_lawful.specs.Checking.{AreMerged, FoundTell, found_of, noted};
ghost use Rattle.cal_run.specs.Lawful.{noted_from};
ghost use Rattle.cal_run.specs.Numbers.{AreNumbered};
ghost use Rattle.cal_run.specs.Seeing.{CanBeRead, SeesInOrder};
ghost use Rattle.cal_run.specs.Steps.{ThreadState, at_start};
ghost use Rattle.cal_script.specs.declared.journal.ThreadNote as thread_notes;
ghost use Rattle.cal_script.specs.Valid.{IsPlaced, IsRunnable};

use crate::found::Found;
use crate::meeting::{is_answered, is_fixed, is_read};
use crate::merged::Merged;
use crate::rows::noted_lines;
use crate::seen::{Spot, first_of};
use crate::watch::Watch;
use cal_context::Context;
use cal_run::{Numbers, noted_at, takes_start_reading};
use cal_script::{Journal, Line, LineNote, Script};
use cal_seeds::Seeds;
use cal_value::OutOfMemory;
use std::alloc::Global;

/// What the rows so far say of the rules on what lines find: how many rows they are, and the first
/// of them that breaks each rule.
#[derive(Clone, Copy, Debug, PartialEq, Eq)]
pub(crate) struct FoundTests {
    pub row: usize,
    pub fixed: Option<usize>,
    pub reading: Option<usize>,
    pub reply: Option<usize>,
}

/// Tests the rules SeenFixed, Reading and Reply on all rows.
pub(crate) fn test_found(
    alloc: Global,
    seeds: Seeds,
    script: &Script,
    journal: &Journal,
    merged: &Merged,
) -> Result<FoundTests, OutOfMemory>
    requires runnable { IsRunnable script.now }
    requires read { CanBeRead script.now journal.now }
    requires merged { AreMerged (all_rows script.now journal.now) merged.now.marks.items }
    ensures { IfOk result (λ tests.
        FoundTell script.now journal.now tests (all_rows script.now journal.now)) }
{
    let mut context = Context::seeded(alloc, seeds);
    let numbers = Numbers::of(alloc, script, &mut context)?;
    test_threads(alloc, script, journal, &numbers, merged, &mut context)
}

fn test_threads(
    alloc: Global,
    script: &Script,
    journal: &Journal,
    numbers: &Numbers,
    merged: &Merged,
    context: &mut Context,
) -> Result<FoundTests, OutOfMemory>
    requires runnable { IsRunnable script.now }
    requires read { CanBeRead script.now journal.now }
    requires numbered { AreNumbered context.old script.now numbers.now }
    requires merged { AreMerged (all_rows script.now journal.now) merged.now.marks.items }
    ensures { IfOk result (λ tests.
        FoundTell script.now journal.now tests (all_rows script.now journal.now)) }
{
    let threads = script.threads.as_slice();
    let mut tests = FoundTests {
        row: 0,
        fixed: None,
        reading: None,
        reply: None,
    };
    for thread in 0..threads.len() {
        let (lines, notes) = noted_lines(script, journal, thread);
        test_start(script, journal, thread, &mut tests);
        test_thread(
            alloc, script, journal, numbers, merged, thread, lines, notes, context, &mut tests,
        )?;
    }
    Ok(tests)
}

fn test_start(script: &Script, journal: &Journal, thread: usize, tests: &mut FoundTests)
    requires within { thread < length journal.now.threads }
    requires room { tests.old.row < 2000000 }
    ensures told { (front : List Row) (d : thread_notes.ThreadNote)
        → FoundTell script.now journal.now tests.old front
        → FoundTell script.now journal.now tests.new
        (front ++ Start (slice_index_or journal.now.threads thread d) ∷ []) }
    ensures row { tests.new.row ≡ tests.old.row + 1 }
{
    let notes = journal.threads.as_slice();
    let kept = is_read(journal, takes_start_reading(script), 0, notes[thread].start);
    tests.reading = first_of(tests.reading, tests.row, kept);
    tests.row += 1;
}

fn test_thread(
    alloc: Global,
    script: &Script,
    journal: &Journal,
    numbers: &Numbers,
    merged: &Merged,
    thread: usize,
    lines: &[Line],
    notes: &[LineNote],
    context: &mut Context,
    tests: &mut FoundTests,
) -> Result<(), OutOfMemory>
    requires runnable { IsRunnable script.now }
    requires numbered { AreNumbered context.old script.now numbers.now }
    requires merged { AreMerged (all_rows script.now journal.now) merged.now.marks.items }
    requires placed { All (IsPlaced script.now.attributes script.now.channels script.now.values)
        lines.now }
    requires noted { length notes.now ≡ length lines.now }
    requires order { SeesInOrder script.now journal.now.ops 0 (zip lines.now notes.now) }
    requires room { tests.old.row + length lines.now ≤ 2000000 }
    ensures told { OnOk result ((front : List Row)
        → FoundTell script.now journal.now tests.old front
        → FoundTell script.now journal.now tests.new (front ++ map Noted
        (noted_from script.now journal.now.ops thread 1 0 at_start (zip lines.now notes.now)))) }
    ensures row { OnOk result (tests.new.row ≡ tests.old.row + length lines.now) }
    ensures grows { Grows context.old context.new }
{
    let ops = journal.ops.as_slice();
    let mut watch = Watch::new(alloc);
    let mut before = 0;
    for place in 0..lines.len() {
        let (line, note) = noted_at(lines, notes, place);
        let found = watch.run_line(alloc, script, numbers, ops, line, note, context)?;
        let spot = Spot {
            thread,
            number: place + 1,
            before,
        };
        test_line(script, journal, merged, spot, line, note, found, tests);
        before = note.seen;
    }
    Ok(())
}

fn test_line(
    script: &Script,
    journal: &Journal,
    merged: &Merged,
    spot: Spot,
    line: Line,
    note: LineNote,
    found: Found,
    tests: &mut FoundTests,
)
    requires merged { AreMerged (all_rows script.now journal.now) merged.now.marks.items }
    requires room { tests.old.row < 2000000 }
    ensures told { (front : List Row) (state : ThreadState)
        → found ≡ found_of script.now journal.now.ops line note state
        → FoundTell script.now journal.now tests.old front
        → FoundTell script.now journal.now tests.new
        (front ++ Noted (noted spot line note state) ∷ []) }
    ensures row { tests.new.row ≡ tests.old.row + 1 }
{
    let row = tests.row;
    let fixed = is_fixed(script, journal, spot, line, note, found);
    tests.fixed = first_of(tests.fixed, row, fixed);
    let read = is_read(journal, found.due, found.clock, note.reading);
    tests.reading = first_of(tests.reading, row, read);
    let answered = is_answered(script, journal, merged, spot, line, note, found.reply);
    tests.reply = first_of(tests.reply, row, answered);
    tests.row = row + 1;
}
