//! What a stream says, as a text, and whether it is the wanted one.

use cal_read::{StreamEnd, StreamKind, read_records};
use cal_value::{Entry, OutOfMemory, Rec, Text, print_value};
use std::alloc::{AllocError, Global};
use std::process::Abort;

/// `name=value` with a comma behind it.
fn show_entry(out: &mut Text, entry: &Entry) -> Result<(), OutOfMemory> {
    out.push_str(entry.attr.name.as_str())?;
    out.push_str("=")?;
    print_value(&entry.value, out)?;
    out.push_str(",")
}

fn show_entries(out: &mut Text, entries: &[Entry]) -> Result<(), OutOfMemory> {
    for entry in entries {
        show_entry(out, entry)?;
    }
    Ok(())
}

fn show_path(out: &mut Text, path: &[Entry]) -> Result<(), OutOfMemory> {
    show_entries(out, path)?;
    out.push_str("|")
}

/// Each path with a bar behind it, and then the immediates.
fn show_record(out: &mut Text, record: &Rec) -> Result<(), OutOfMemory> {
    for path in record.paths.as_slice() {
        show_path(out, path.as_slice())?;
    }
    show_entries(out, record.imms.as_slice())?;
    out.push_str(";")
}

/// The rows, and then the globals.
fn show_all(out: &mut Text, rows: &[Rec], globals: &Rec) -> Result<(), OutOfMemory> {
    for row in rows {
        show_record(out, row)?;
    }
    show_record(out, globals)
}

/// Whether records, the globals last, are shown so.
pub(crate) fn are_shown(
    alloc: Global,
    rows: &[Rec],
    globals: &Rec,
    wanted: &str,
) -> Result<bool, OutOfMemory> {
    let mut out = Text::new(alloc);
    show_all(&mut out, rows, globals)?;
    Ok(out.as_str() == wanted)
}

/// Whether a stream has these records.
pub(crate) fn reads_as(alloc: Global, stream: &[u8], wanted: &str) -> Result<bool, OutOfMemory> {
    match read_records(alloc, stream) {
        Ok(records) => are_shown(alloc, records.rows.as_slice(), &records.globals, wanted),
        Err(_) => Ok(false),
    }
}

/// Whether a stream has this fault.
pub(crate) fn fails_at(alloc: Global, stream: &[u8], line: u64, kind: StreamKind) -> bool {
    match read_records(alloc, stream) {
        Ok(_) => false,
        Err(end) => end == StreamEnd::BadLine { line, kind },
    }
}

/// Parts, one behind another.
pub(crate) fn joined(alloc: Global, parts: &[&str]) -> Result<String, AllocError> {
    let mut text = String::new(alloc);
    for part in parts {
        text.push_str(part)?;
    }
    Ok(text)
}

fn says(alloc: Global, parts: &[&str], wanted: &str) -> Result<bool, OutOfMemory> {
    let stream = joined(alloc, parts)?;
    reads_as(alloc, stream.as_bytes(), wanted)
}

fn falls(alloc: Global, parts: &[&str], line: u64, kind: StreamKind) -> Result<bool, OutOfMemory> {
    let stream = joined(alloc, parts)?;
    Ok(fails_at(alloc, stream.as_bytes(), line, kind))
}

/// The first row of a table that has other records between these two texts.
pub(crate) fn wrong_row(
    alloc: Global,
    front: &str,
    rows: &[(&str, &str)],
    back: &str,
) -> Result<Option<usize>, OutOfMemory> {
    for row in 0..rows.len() {
        if !says(alloc, &[front, rows[row].0, back], rows[row].1)? {
            return Ok(Some(row));
        }
    }
    Ok(None)
}

/// The first row of a table that has another fault than the sixth line's, behind this text.
pub(crate) fn wrong_fault(
    alloc: Global,
    front: &str,
    rows: &[(&str, StreamKind)],
) -> Result<Option<usize>, OutOfMemory> {
    for row in 0..rows.len() {
        if !falls(alloc, &[front, rows[row].0, "\n"], 6, rows[row].1)? {
            return Ok(Some(row));
        }
    }
    Ok(None)
}

/// No row of a table is wrong, and the memory was enough.
pub(crate) fn all_hold(rt: &impl Abort, wrong: Result<Option<usize>, OutOfMemory>) {
    assert_eq!(rt; wrong, Ok(None), "the first wrong row");
}

/// The answer is yes, and the memory was enough.
pub(crate) fn is_true(rt: &impl Abort, answer: Result<bool, OutOfMemory>) {
    assert!(rt; answer == Ok(true));
}
