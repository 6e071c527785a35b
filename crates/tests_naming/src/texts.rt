//! Texts of declarations, by worked rows: their first faults, and what they say.

use cal_declarations::{DeclarationsEnd, meaning_law, read_declarations};
use cal_script::ScriptKind;
use cal_value::{Kind, OutOfMemory};
use std::alloc::{AllocError, Global};
use std::process::Abort;

/// A text, and its first fault, if it has one.
type Case = (&'static str, Option<(u64, ScriptKind)>);

// The first fault of a text.
fn fault_of(alloc: Global, bytes: &[u8]) -> Result<Option<(u64, ScriptKind)>, OutOfMemory> {
    match read_declarations(alloc, bytes) {
        Ok(_) => Ok(None),
        Err(DeclarationsEnd::BadLine { line, kind }) => Ok(Some((line, kind))),
        Err(DeclarationsEnd::OutOfMemory) => Err(OutOfMemory),
    }
}

// The first text of a table that has another fault.
fn wrong_case(alloc: Global, cases: &'static [Case]) -> Result<Option<&'static str>, OutOfMemory> {
    for row in 0..cases.len() {
        if fault_of(alloc, cases[row].0.as_bytes())? != cases[row].1 {
            return Ok(Some(cases[row].0));
        }
    }
    Ok(None)
}

fn all_hold(rt: &impl Abort, wrong: Result<Option<&'static str>, OutOfMemory>) {
    assert_eq!(rt; wrong, Ok(None), "the first wrong row");
}

const PLACES: [Case; 11] = [
    ("", None),
    ("\n#\n\n# a comment\n", None),
    ("thread", None),
    ("thread\nthread\ndeclare a int 1\ndeclare a uint 1\n", None),
    (" ", Some((1, ScriptKind::UnknownWord))),
    ("Thread", Some((1, ScriptKind::UnknownWord))),
    ("attribute a int 1", Some((1, ScriptKind::UnknownWord))),
    ("thread\nbegin a 1", Some((2, ScriptKind::UnknownWord))),
    ("declare a int 1\nthread", Some((1, ScriptKind::Misplaced))),
    ("\n#\ndeclare", Some((3, ScriptKind::Misplaced))),
    ("thread ", Some((1, ScriptKind::WrongArity))),
];

const WORDS: [Case; 12] = [
    ("thread\ndeclare", Some((2, ScriptKind::WrongArity))),
    ("thread\ndeclare a int", Some((2, ScriptKind::WrongArity))),
    (
        "thread\ndeclare a  int 1",
        Some((2, ScriptKind::WrongArity)),
    ),
    (
        "thread\ndeclare a int 1 ",
        Some((2, ScriptKind::WrongArity)),
    ),
    ("thread\ndeclare a/b x y", Some((2, ScriptKind::BadName))),
    ("thread\ndeclare path int 1", Some((2, ScriptKind::BadName))),
    (
        "thread\ndeclare cali.x int 1",
        Some((2, ScriptKind::BadName)),
    ),
    ("thread\ndeclare a type x", Some((2, ScriptKind::BadKind))),
    ("thread\ndeclare a string 1", Some((2, ScriptKind::BadKind))),
    ("thread\ndeclare a int x", Some((2, ScriptKind::BadProps))),
    (
        "thread\ndeclare a int 65536",
        Some((2, ScriptKind::BadProps)),
    ),
    ("thread\ndeclare a int 0065535", None),
];

#[test]
fn lines_stand_where_they_may(rt: HostRuntime) {
    all_hold(&rt, wrong_case(rt.alloc(), &PLACES));
}

#[test]
fn words_are_judged_from_the_left(rt: HostRuntime) {
    all_hold(&rt, wrong_case(rt.alloc(), &WORDS));
    meaning_law();
}

#[test]
fn bytes_that_are_no_text_are_a_fault(rt: HostRuntime) {
    let fault = fault_of(rt.alloc(), b"thread\n#\xff");
    assert_eq!(rt; fault, Ok(Some((2, ScriptKind::NotText))));
}

// A front, and then a line so often.
fn repeated(alloc: Global, front: &str, line: &str, count: usize) -> Result<String, AllocError> {
    let mut text = String::from_str(alloc, front)?;
    for _ in 0..count {
        text.push_str(line)?;
    }
    Ok(text)
}

// The first fault of so many lines behind a front.
fn fault_of_many(
    alloc: Global,
    front: &str,
    line: &str,
    count: usize,
) -> Result<Option<(u64, ScriptKind)>, OutOfMemory> {
    let text = repeated(alloc, front, line, count)?;
    fault_of(alloc, text.as_str().as_bytes())
}

#[test]
fn each_limit_is_kept(rt: HostRuntime) {
    let alloc = rt.alloc();
    assert_eq!(rt; fault_of_many(alloc, "", "thread\n", 64), Ok(None));
    let threads = fault_of_many(alloc, "", "thread\n", 65);
    assert_eq!(rt; threads, Ok(Some((65, ScriptKind::TooMany))));
    let most = 1_048_576;
    assert_eq!(rt;
        fault_of_many(alloc, "thread\n", "declare a int 1\n", most),
        Ok(None)
    );
    let lines = fault_of_many(alloc, "thread\n", "declare a int 1\n", most + 1);
    assert_eq!(rt; lines, Ok(Some((1_048_578, ScriptKind::TooMany))));
}

// Whether a text of two threads says these declarations.
fn says_two(alloc: Global) -> Result<bool, DeclarationsEnd> {
    let text = b"thread\ndeclare b string 276\nthread\ndeclare b string 276\ndeclare c bool 0\n";
    let all = read_declarations(alloc, text)?;
    let [first, second] = all.threads.as_slice() else {
        return Ok(false);
    };
    let [b] = first.as_slice() else {
        return Ok(false);
    };
    let [_, c] = second.as_slice() else {
        return Ok(false);
    };
    Ok(
        b.name.as_str() == "b"
            && b.kind == Kind::Str
            && b.props.0 == 276
            && c.name.as_str() == "c"
            && all.shape.slots == 7
            && all.shape.arena == 10
            && all.shape.arenas == 3,
    )
}

#[test]
fn declarations_are_read(rt: HostRuntime) {
    assert_eq!(rt; says_two(rt.alloc()), Ok(true));
}
