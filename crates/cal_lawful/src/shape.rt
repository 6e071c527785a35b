ghost use Rattle.std.specs.Prelude.{◌≡◌, ◌++◌, false, map, IfErr, IfNone, IfOk, IfSome, OnOk};
ghost use Rattle.std.specs.Prelude.{◌↔◌, IsTrue, Some, slice_get};
ghost use Rattle.cal_journal.specs.declared.kind.JournalKind.TheVariants as kind;
ghost use Rattle.cal_lawful.specs.Broken.{line_rows, mark_at, starts_of, wanted_rows};
ghost use Rattle.cal_lawful.specs.Broken.{BreaksShape, written_row, written_rows};
ghost use Rattle.cal_lawful.specs.Checking.{EndsBy};

use crate::CoreEnd;
use cal_journal::JournalKind;
use cal_script::{JournalText, Line, LineNote, RowMark, Script, ThreadNote};
use cal_value::OutOfMemory;
use std::alloc::Global;

/// What a row of a journal says it is of: a thread, and a line of it by its number, which is 0 for a
/// `start`.
#[derive(Clone, Copy, Debug, PartialEq, Eq)]
pub struct RowName {
    pub start: bool,
    pub thread: u64,
    pub number: u64,
}

/// Tests that a journal has the rows of its script, in their order.
pub(crate) fn check_shape(alloc: Global, script: &Script, text: &JournalText) -> Result<(), CoreEnd>
    ensures held { OnOk result (written_rows text.now ≡ wanted_rows script.now) }
    ensures broken { IfErr result (EndsBy script.now text.now kind.Shape) }
{
    let wanted = wanted_rows(alloc, script)?;
    let starts = row_starts(alloc, text.journal.threads.as_slice())?;
    match first_strange_line(script, text, &starts, &wanted) {
        None => Ok(()),
        Some(line) => Err(CoreEnd::JournalFault {
            line,
            kind: JournalKind::Shape,
        }),
    }
}

/// Where a row stands, and what it says it is of.
pub(crate) fn mark_at(text: &JournalText, row: usize) -> RowMark
    ensures { result ≡ mark_at text.now row }
{
    match text.marks.rows.get(row) {
        Some(mark) => *mark,
        None => RowMark {
            line: 0,
            thread: 0,
            number: 0,
        },
    }
}

/// The rows that a script has.
fn wanted_rows(alloc: Global, script: &Script) -> Result<Vec<RowName>, OutOfMemory>
    ensures { IfOk result (λ rows. rows.items ≡ wanted_rows script.now) }
{
    let threads = script.threads.as_slice();
    let mut rows = Vec::new(alloc);
    for thread in 0..threads.len() {
        rows.push(RowName {
            start: true,
            thread: thread as u64,
            number: 0,
        })?;
        push_line_rows(thread as u64, threads[thread].as_slice(), &mut rows)?;
    }
    Ok(rows)
}

fn push_line_rows(thread: u64, lines: &[Line], rows: &mut Vec<RowName>) -> Result<(), OutOfMemory>
    ensures { OnOk result (rows.new.items ≡ rows.old.items ++ line_rows thread 1 lines.now) }
{
    for place in 0..lines.len() {
        rows.push(RowName {
            start: false,
            thread,
            number: place as u64 + 1,
        })?;
    }
    Ok(())
}

/// Which of a journal's rows are starts.
fn row_starts(alloc: Global, notes: &[ThreadNote]) -> Result<Vec<bool>, OutOfMemory>
    ensures { IfOk result (λ starts. starts.items ≡ starts_of notes.now) }
{
    let mut starts = Vec::new(alloc);
    for thread in 0..notes.len() {
        starts.push(true)?;
        push_lines(notes[thread].lines.as_slice(), &mut starts)?;
    }
    Ok(starts)
}

fn push_lines(lines: &[LineNote], starts: &mut Vec<bool>) -> Result<(), OutOfMemory>
    ensures { OnOk result (starts.new.items ≡ starts.old.items ++ map (λ _. false) lines.now) }
{
    for _place in 0..lines.len() {
        starts.push(false)?;
    }
    Ok(())
}

/// The input's line of the first row that isn't the wanted one, or of the end, where rows are
/// missing.
fn first_strange_line(
    script: &Script,
    text: &JournalText,
    starts: &[bool],
    wanted: &[RowName],
) -> Option<u64>
    requires starts { starts.now ≡ starts_of text.now.journal.threads }
    requires wanted { wanted.now ≡ wanted_rows script.now }
    ensures none { IfNone result (written_rows text.now ≡ wanted_rows script.now) }
    ensures some { IfSome result (BreaksShape text.now (written_rows text.now)
        (wanted_rows script.now)) }
{
    let _ = script;
    for row in 0..starts.len() {
        if !is_wanted(text, row, starts[row], wanted) {
            return Some(mark_at(text, row).line);
        }
    }
    if starts.len() < wanted.len() {
        return Some(text.marks.end);
    }
    None
}

/// Whether a row is written as the wanted one.
fn is_wanted(text: &JournalText, row: usize, start: bool, wanted: &[RowName]) -> bool
    ensures { IsTrue result ↔ (slice_get wanted.now row ≡ Some (written_row text.now row start)) }
{
    match wanted.get(row) {
        None => false,
        Some(name) => is_name(mark_at(text, row), start, *name),
    }
}

fn is_name(mark: RowMark, start: bool, name: RowName) -> bool
    ensures { IsTrue result ↔ (name
        ≡ record { start = start; thread = mark.thread; number = mark.number }) }
{
    name.start == start && name.thread == mark.thread && name.number == mark.number
}
