//! Texts of declarations, by worked rows: what is kept, and what each line is replied.

use cal_declarations::{DeclarationsEnd, read_declarations};
use cal_naming::{NameReply, Named, any_order_law, declare_all};
use cal_value::{Kind, Props};
use std::alloc::Global;
use std::process::Abort;
use std::thread::Threads;

/// A text, and how many threads, lines, names and replies *Different* it comes to.
type Row = (&'static str, [usize; 4]);

// What the threads of a text come to.
fn named<R: Threads + Sync>(rt: &R, alloc: Global, text: &str) -> Result<Named, DeclarationsEnd> {
    let all = read_declarations(alloc, text.as_bytes())?;
    Ok(declare_all(rt, alloc, &all)?)
}

// How many of these replies are Same.
fn same(replies: &[NameReply]) -> usize {
    let mut count: usize = 0;
    for reply in replies {
        count = count.saturating_add(if *reply == NameReply::Same { 1 } else { 0 });
    }
    count
}

// The counts of a row.
fn counts(named: &Named) -> [usize; 4] {
    let mut lines: usize = 0;
    let mut kept: usize = 0;
    for own in named.replies.as_slice() {
        lines = lines.saturating_add(own.len());
        kept = kept.saturating_add(same(own.as_slice()));
    }
    [
        named.replies.len(),
        lines,
        named.kept.len(),
        lines.saturating_sub(kept),
    ]
}

fn counts_of<R: Threads + Sync>(
    rt: &R,
    alloc: Global,
    text: &str,
) -> Result<[usize; 4], DeclarationsEnd> {
    Ok(counts(&named(rt, alloc, text)?))
}

// The first text of the rows that comes to other counts.
fn wrong_row<R: Threads + Sync>(
    rt: &R,
    alloc: Global,
    rows: &'static [Row],
) -> Result<Option<&'static str>, DeclarationsEnd> {
    for at in 0..rows.len() {
        if counts_of(rt, alloc, rows[at].0)? != rows[at].1 {
            return Ok(Some(rows[at].0));
        }
    }
    Ok(None)
}

const ROWS: [Row; 6] = [
    ("", [0, 0, 0, 0]),
    ("thread", [1, 0, 0, 0]),
    ("thread\nthread\ndeclare a int 1\n", [2, 1, 1, 0]),
    (
        "thread\ndeclare a int 1\ndeclare a uint 1\ndeclare a int 1\n",
        [1, 3, 1, 1],
    ),
    (
        "thread\ndeclare b string 276\nthread\ndeclare b string 276\ndeclare c bool 0\n",
        [2, 3, 2, 0],
    ),
    (
        "thread\ndeclare a int 1\ndeclare b int 1\ndeclare c int 1\ndeclare d int 65535\n\
         thread\ndeclare d int 2\ndeclare c int 2\ndeclare b int 2\ndeclare a int 2\n",
        [2, 8, 4, 4],
    ),
];

#[test]
fn each_name_is_kept_once(rt: HostRuntime) {
    let wrong = wrong_row(&rt, rt.alloc(), &ROWS);
    assert_eq!(rt; wrong, Ok(None), "the first wrong row");
    any_order_law();
}

// Whether the first thread was replied this, and the first name that is kept has this declaration.
fn is_first(named: &Named, replies: [NameReply; 3], name: &str, kind: Kind, props: u32) -> bool {
    let Some(own) = named.replies.get(0) else {
        return false;
    };
    let Some(line) = named.kept.get(0) else {
        return false;
    };
    own.as_slice() == replies.as_slice()
        && line.name.as_str() == name
        && line.kind == kind
        && line.props == Props(props)
}

fn keeps_first<R: Threads + Sync>(rt: &R, alloc: Global) -> Result<bool, DeclarationsEnd> {
    let text = "thread\ndeclare a int 1\ndeclare a uint 1\ndeclare a int 1\n";
    let other = NameReply::Different {
        kind: Kind::Int,
        props: 1,
    };
    let replies = [NameReply::Same, other, NameReply::Same];
    Ok(is_first(&named(rt, alloc, text)?, replies, "a", Kind::Int, 1))
}

#[test]
fn the_first_declaration_of_a_thread_is_kept(rt: HostRuntime) {
    assert_eq!(rt; keeps_first(&rt, rt.alloc()), Ok(true));
}

// 64 threads that declare one name.
fn many<R: Threads + Sync>(rt: &R, alloc: Global) -> Result<[usize; 4], DeclarationsEnd> {
    let mut text = String::new(alloc);
    for _ in 0..64 {
        if text.push_str("thread\ndeclare a int 1\n").is_err() {
            return Err(DeclarationsEnd::OutOfMemory);
        }
    }
    counts_of(rt, alloc, text.as_str())
}

#[test]
fn threads_of_one_line_agree(rt: HostRuntime) {
    assert_eq!(rt; many(&rt, rt.alloc()), Ok([64, 64, 1, 0]));
}
