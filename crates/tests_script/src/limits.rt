use crate::drawn::{fault_of, repeated};
use cal_script::ScriptKind;
use cal_value::OutOfMemory;
use std::alloc::{AllocError, Global};
use std::process::Abort;

type Parts = (&'static [(&'static str, usize)], Option<(u64, ScriptKind)>);

/// The first script of a table that has another fault.
fn wrong_parts(alloc: Global, cases: &[Parts]) -> Result<Option<usize>, OutOfMemory> {
    for row in 0..cases.len() {
        let text = repeated(alloc, cases[row].0)?;
        if fault_of(alloc, text.as_bytes())? != cases[row].1 {
            return Ok(Some(row));
        }
    }
    Ok(None)
}

/// No script of a table is wrong, and the memory was enough.
fn all_hold(rt: &impl Abort, wrong: Result<Option<usize>, OutOfMemory>) {
    assert_eq!(rt; wrong, Ok(None), "the first wrong row");
}

const LINES: [Parts; 2] = [
    (&[("thread\n", 1), ("snapshot\n", 1_048_576)], None),
    (
        &[("thread\n", 1), ("snapshot\n", 1_048_577)],
        Some((1_048_578, ScriptKind::TooMany)),
    ),
];

#[test]
fn lines_of_threads_are_limited(rt: HostRuntime) {
    all_hold(&rt, wrong_parts(rt.alloc(), &LINES));
}

const THREADS: [Parts; 2] = [
    (&[("thread\n", 64)], None),
    (&[("thread\n", 65)], Some((65, ScriptKind::TooMany))),
];

#[test]
fn threads_are_limited(rt: HostRuntime) {
    all_hold(&rt, wrong_parts(rt.alloc(), &THREADS));
}

const PROCESS_LINES: [Parts; 2] = [
    (
        &[
            ("attribute a int 12\n", 1),
            ("thread\n", 1),
            ("end a\n", 65_536),
        ],
        None,
    ),
    (
        &[
            ("attribute a int 12\n", 1),
            ("thread\n", 1),
            ("end a\n", 65_537),
        ],
        Some((65_539, ScriptKind::TooMany)),
    ),
];

#[test]
fn process_lines_are_limited(rt: HostRuntime) {
    all_hold(&rt, wrong_parts(rt.alloc(), &PROCESS_LINES));
}

// A node of an `int` has 6 words. Of 64 threads the arena may have 1,651,911 words: 65 times
// 412,977 slots and 65 arenas, with 2 words more, are 134,217,722.
const SHAPES: [Parts; 2] = [
    (
        &[
            ("attribute a int 0\n", 1),
            ("thread\n", 64),
            ("set a 1\n", 275_318),
        ],
        None,
    ),
    (
        &[
            ("attribute a int 0\n", 1),
            ("thread\n", 64),
            ("set a 1\n", 275_319),
        ],
        Some((275_384, ScriptKind::TooMany)),
    ),
];

#[test]
fn the_shape_of_the_tree_is_limited(rt: HostRuntime) {
    all_hold(&rt, wrong_parts(rt.alloc(), &SHAPES));
}

// 65,535 process lines make 393,210 words for each thread, and 209,783 lines of a thread
// 1,258,698 more: together 1,651,908.
const SHARED_SHAPES: [Parts; 2] = [
    (
        &[
            ("attribute a int 0\nattribute p int 12\nthread\n", 1),
            ("set p 1\n", 65_535),
            ("thread\n", 63),
            ("set a 1\n", 209_783),
        ],
        None,
    ),
    (
        &[
            ("attribute a int 0\nattribute p int 12\nthread\n", 1),
            ("set p 1\n", 65_535),
            ("thread\n", 63),
            ("set a 1\n", 209_784),
        ],
        Some((275_385, ScriptKind::TooMany)),
    ),
];

#[test]
fn the_shape_counts_process_lines_of_all_threads(rt: HostRuntime) {
    all_hold(&rt, wrong_parts(rt.alloc(), &SHARED_SHAPES));
}

const TEXTS: [Parts; 6] = [
    (&[("channel ", 1), ("a", 200), (" trace", 1)], None),
    (
        &[("channel ", 1), ("a", 201), (" trace", 1)],
        Some((1, ScriptKind::BadName)),
    ),
    (
        &[("attribute a string 0\nthread\nset a \\n", 1), ("a", 4_095)],
        None,
    ),
    (
        &[("attribute a string 0\nthread\nset a \\n", 1), ("a", 4_096)],
        Some((3, ScriptKind::BadValue)),
    ),
    (
        &[("attribute a double 0\nthread\nset a e", 1), ("0", 4_096)],
        Some((3, ScriptKind::BadValue)),
    ),
    (
        &[("attribute a int 0\nthread\nset a ", 1), ("0", 5_000)],
        None,
    ),
];

#[test]
fn names_and_texts_are_limited(rt: HostRuntime) {
    all_hold(&rt, wrong_parts(rt.alloc(), &TEXTS));
}

fn put_numbered(
    alloc: Global,
    front: &str,
    count: usize,
    back: &str,
    text: &mut String,
) -> Result<(), AllocError> {
    for n in 0..count {
        text.push_str(format!(in alloc; "{front}{n}{back}")?.as_str())?;
    }
    Ok(())
}

/// The front of each line, how many lines, the back of each, and the fault.
type Numbered = (&'static str, usize, &'static str, Option<(u64, ScriptKind)>);

const NUMBERED: [Numbered; 4] = [
    ("attribute a", 1_024, " int 0\n", None),
    (
        "attribute a",
        1_025,
        " int 0\n",
        Some((1_025, ScriptKind::TooMany)),
    ),
    ("channel c", 16, " trace\n", None),
    ("channel c", 17, " trace\n", Some((17, ScriptKind::TooMany))),
];

fn numbered() -> &'static [Numbered] {
    &NUMBERED
}

fn wrong_number(alloc: Global) -> Result<Option<usize>, OutOfMemory> {
    let rows = numbered();
    for row in 0..rows.len() {
        let mut text = String::new(alloc);
        put_numbered(alloc, rows[row].0, rows[row].1, rows[row].2, &mut text)?;
        if fault_of(alloc, text.as_bytes())? != rows[row].3 {
            return Ok(Some(row));
        }
    }
    Ok(None)
}

#[test]
fn attributes_and_channels_are_limited(rt: HostRuntime) {
    all_hold(&rt, wrong_number(rt.alloc()));
}
