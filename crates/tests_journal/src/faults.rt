//! Faults of journals, and of the scripts before them.

use cal_journal::{BothEnd, JournalKind, read_both};
use cal_value::OutOfMemory;
use std::alloc::{AllocError, Global};

/// What may stand behind the line `journal script` of a script of one line.
const FINE: [&str; 7] = [
    "end",
    "end\n\n\n",
    "op 0 1\nop 007 99999999999999999999\nstart 0 -\nend",
    "start 0 18446744073709551615\nline 0 1 done 0 0\nend",
    "start 0 -\nline 0 1 mismatch:7 0 -\nline 0 2 busy:1 0 -\nend",
    "start 0 -\nline 0 1 notopen 0 -\nline 0 2 toodeep 0 -\nend",
    "start 0 -\nline 0 1 slotsfull 0 -\nline 0 2 merged 0 -\nend",
];

/// The same that is faulty, with the line and the kind.
const FAULTS: [(&str, u64, JournalKind); 21] = [
    ("start 0 18446744073709551616\nend", 3, JournalKind::Form),
    ("start 0 -\nop 0 1\nend", 4, JournalKind::Form),
    ("line 0 1 done 0 -\nend", 3, JournalKind::Form),
    ("journal script\nend", 3, JournalKind::Form),
    ("#\nend", 3, JournalKind::Form),
    (" \nend", 3, JournalKind::Form),
    ("op 0\nend", 3, JournalKind::Form),
    ("op 0 1 \nend", 3, JournalKind::Form),
    ("op 0 -1\nend", 3, JournalKind::Form),
    ("end \n", 3, JournalKind::Form),
    ("start 0 -\nline 0 1 Done 0 -\nend", 4, JournalKind::Form),
    ("start 0 -\nline 0 1 done:1 0 -\nend", 4, JournalKind::Form),
    (
        "start 0 -\nline 0 1 mismatch 0 -\nend",
        4,
        JournalKind::Form,
    ),
    ("start 0 -\nline 0 1 busy: 0 -\nend", 4, JournalKind::Form),
    (
        "start 0 -\nline 0 1 busy:1:2 0 -\nend",
        4,
        JournalKind::Form,
    ),
    ("start 0 -\nline 0 1 done 0\nend", 4, JournalKind::Form),
    ("", 3, JournalKind::Cut),
    ("\n", 4, JournalKind::Cut),
    ("start 0 -", 4, JournalKind::Cut),
    ("end\n\nx", 5, JournalKind::After),
    ("end\nend", 4, JournalKind::After),
];

fn fine() -> &'static [&'static str] {
    &FINE
}

fn faults() -> &'static [(&'static str, u64, JournalKind)] {
    &FAULTS
}

fn input(alloc: Global, text: &str) -> Result<String, AllocError> {
    let mut whole = String::from_str(alloc, "thread\njournal script\n")?;
    whole.push_str(text)?;
    Ok(whole)
}

/// Why an input isn't read, if it isn't.
fn fault_of(alloc: Global, bytes: &[u8]) -> Option<BothEnd> {
    match read_both(alloc, bytes) {
        Ok(both) => {
            drop(both);
            None
        }
        Err(end) => Some(end),
    }
}

fn fault_behind(alloc: Global, text: &str) -> Result<Option<BothEnd>, AllocError> {
    let whole = input(alloc, text)?;
    let fault = fault_of(alloc, whole.as_bytes());
    drop(whole);
    Ok(fault)
}

fn wrong_text(alloc: Global) -> Result<Option<usize>, AllocError> {
    let rows = fine();
    for row in 0..rows.len() {
        if fault_behind(alloc, rows[row])?.is_some() {
            return Ok(Some(row));
        }
    }
    Ok(None)
}

fn wrong_fault(alloc: Global) -> Result<Option<usize>, AllocError> {
    let rows = faults();
    for row in 0..rows.len() {
        let (text, line, kind) = rows[row];
        if fault_behind(alloc, text)? != Some(BothEnd::Journal { line, kind }) {
            return Ok(Some(row));
        }
    }
    Ok(None)
}

#[test]
fn lines_and_replies_have_forms(rt: HostRuntime) {
    assert_eq!(rt; wrong_text(rt.alloc()), Ok(None), "the first wrong row");
}

#[test]
fn the_first_fault_is_told(rt: HostRuntime) {
    assert_eq!(rt; wrong_fault(rt.alloc()), Ok(None), "the first wrong row");
}

/// Whether the first fault of an input is told so.
fn is_told(alloc: Global, bytes: &[u8], wanted: &str) -> Result<bool, OutOfMemory> {
    let Some(end) = fault_of(alloc, bytes) else {
        return Ok(false);
    };
    let told = format!(in alloc; "{end}")?;
    let is_wanted = told.as_str() == wanted;
    drop(told);
    Ok(is_wanted)
}

/// Inputs whose script is faulty, or whose journal is, and what is told.
const TOLD: [(&[u8], &str); 4] = [
    (b"tick 1\njournal\nnosuch\n", "line 1: Misplaced"),
    (b"thread\njournal\n", "line 2: Form"),
    (b"thread\njournals\n", "line 2: UnknownWord"),
    (b"thread\njournal real\n\xff\n", "line 3: Form"),
];

fn told() -> &'static [(&'static [u8], &'static str)] {
    &TOLD
}

fn wrong_told(alloc: Global) -> Result<Option<usize>, OutOfMemory> {
    let rows = told();
    for row in 0..rows.len() {
        if !is_told(alloc, rows[row].0, rows[row].1)? {
            return Ok(Some(row));
        }
    }
    Ok(None)
}

#[test]
fn a_fault_of_the_script_goes_first(rt: HostRuntime) {
    assert_eq!(rt; wrong_told(rt.alloc()), Ok(None), "the first wrong row");
}
