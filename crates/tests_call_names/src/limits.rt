//! A line past each limit, and sixty-four threads.

use crate::rows::{Left, difference_of};
use std::alloc::{AllocError, Global};
use std::process::Abort;
use std::thread::Threads;

/// So many times a line behind a front.
fn repeated(alloc: Global, front: &str, line: &str, count: usize) -> Result<String, AllocError> {
    let mut text = String::from_str(alloc, front)?;
    for _ in 0..count {
        text.push_str(line)?;
    }
    Ok(text)
}

/// What is left otherwise of so many lines behind so many threads, of which the last is at fault;
/// or nothing.
fn difference_of_many<R: Threads + Sync + AllocGlobal>(
    rt: &R,
    threads: usize,
    line: &str,
    count: usize,
    told: &str,
) -> Option<&'static str> {
    let front = repeated(rt.alloc(), "", "thread\n", threads).ok()?;
    let text = repeated(rt.alloc(), front.as_str(), line, count);
    drop(front);
    let left = Left {
        text: "",
        told,
        status: 3,
    };
    let text = text.ok()?;
    let found = difference_of(rt, &["names"], text.as_str(), &left);
    drop(text);
    found
}

fn assert_too_many<R: Threads + Sync + Abort + AllocGlobal>(
    rt: &R,
    threads: usize,
    line: &str,
    count: usize,
    told: &str,
) {
    let found = difference_of_many(rt, threads, line, count, told);
    assert_eq!(rt; found, Some(""), "{told}");
}

/// A line of a name of two hundred bytes, whose record has 29 words.
const LONGEST: &str = "declare 01234567890123456789012345678901234567890123456789\
0123456789012345678901234567890123456789012345678901234567890123456789\
01234567890123456789012345678901234567890123456789012345678901234567890123456789 int 1\n";

#[test]
fn threads_are_few(rt: HostRuntime) {
    assert_too_many(&rt, 65, "", 0, "caliper: line 65: TooMany\n");
}

#[test]
fn declarations_are_few(rt: HostRuntime) {
    assert_too_many(
        &rt,
        1,
        "declare a int 1\n",
        1_048_577,
        "caliper: line 1048578: TooMany\n",
    );
}

/// With 64 threads a table for 59,335 such lines of one of them has 134,215,772 words, and for one
/// more 134,217,982.
#[test]
fn tables_are_small(rt: HostRuntime) {
    assert_too_many(&rt, 64, LONGEST, 59_336, "caliper: line 59400: TooMany\n");
}

/// Sixty-four threads of a line each: one name alike, or 64 names, the last first.
fn many_threads(alloc: Global, alike: bool) -> Result<String, AllocError> {
    let mut text = String::new(alloc);
    for thread in 0..64u32 {
        let number = if alike { 10 } else { 73 - thread };
        let lines = format!(in alloc; "thread\ndeclare n{number} int 1\n")?;
        text.push_str(lines.as_str())?;
    }
    Ok(text)
}

/// The list of names by numbers from 10 to below this.
fn numbered(alloc: Global, end: u32) -> Result<String, AllocError> {
    let mut text = String::new(alloc);
    for number in 10..end {
        let line = format!(in alloc; "attribute n{number} int 1\n")?;
        text.push_str(line.as_str())?;
    }
    Ok(text)
}

fn difference_of_threads<R: Threads + Sync + AllocGlobal>(
    rt: &R,
    alike: bool,
    end: u32,
) -> Option<&'static str> {
    let text = many_threads(rt.alloc(), alike).ok()?;
    let wanted = numbered(rt.alloc(), end);
    let found = match &wanted {
        Ok(wanted) => {
            let left = Left {
                text: wanted.as_str(),
                told: "",
                status: 0,
            };
            difference_of(rt, &["names"], text.as_str(), &left)
        }
        Err(_) => None,
    };
    drop(wanted);
    drop(text);
    found
}

#[test]
fn sixty_four_threads_declare_a_line_each(rt: HostRuntime) {
    assert_eq!(rt; difference_of_threads(&rt, true, 11), Some(""));
    assert_eq!(rt; difference_of_threads(&rt, false, 74), Some(""));
}
