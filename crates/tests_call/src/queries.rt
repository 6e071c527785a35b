//! `query`.

use crate::calls::{failing_source, status_of, streams_over};
use crate::rows::{Refused, Words, Written, assert_refused, assert_written};
use crate::scripts::ESCAPES_TEXT;
use crate::streams::{ENTRIES, HOSTS, TIMES};
use cal_base::OpenGate;
use std::alloc::Global;
use std::random::RandomSource;
use std::thread::Threads;

const PLAIN: Words = &["query"];

const JOIN: Words = &["query", "--globals=join"];

const COUNT: Words = &["query", "--q=select function,count() group by function"];

const ROWS: [Written; 6] = [
    (PLAIN, "", ""),
    (PLAIN, ESCAPES_TEXT, "function=a\\,b\\=c\\\\d\\ne\n"),
    (PLAIN, TIMES, "function=main,time.duration=0.25\n"),
    (
        PLAIN,
        ENTRIES,
        "function=main,region.depth=1,region.count=2,iteration=7\n",
    ),
    (
        PLAIN,
        HOSTS,
        "function=main\nfunction=main/solve,host=n0\n\n",
    ),
    (
        &["query", "--globals=off"],
        TIMES,
        "function=main,time.duration=0.25\n",
    ),
];

const JOINED: [Written; 3] = [
    (JOIN, TIMES, "function=main/main,time.duration=0.25\n"),
    (
        JOIN,
        HOSTS,
        "function=main,host=n1/n2\nfunction=main/solve,host=n0/n1/n2\nhost=n1/n2\n",
    ),
    (JOIN, "", ""),
];

/// A node that comes twice, with different properties.
const TWICE: &str = "\
__rec=node,id=12,attr=10,data=276,parent=3
__rec=node,id=12,attr=10,data=65,parent=3
";

const UNKNOWN: &str = "caliper: line 1: UnknownNode\n";

const FAULTY: [Refused; 5] = [
    (PLAIN, "__rec=ctx,ref=12\n\n__rec=ctx,ref\n", UNKNOWN, 3),
    (JOIN, "__rec=ctx,ref=12", UNKNOWN, 3),
    (COUNT, "__rec=ctx,ref=12", UNKNOWN, 3),
    (PLAIN, TWICE, "caliper: line 2: Redefined\n", 3),
    (
        PLAIN,
        "__rec=node,id=12,attr=10\n",
        "caliper: line 1: MissingField\n",
        3,
    ),
];

const USAGE: [Refused; 5] = [
    (
        &["query", "--globals=on"],
        TIMES,
        "caliper: usage: word 2\n",
        2,
    ),
    (&["query", "join"], TIMES, "caliper: usage: word 2\n", 2),
    (
        &["query", "--globals=join", ""],
        TIMES,
        "caliper: usage: word 3\n",
        2,
    ),
    (
        &["query", "--globals=off", "--globals=join", "x"],
        TIMES,
        "caliper: usage: word 3\n",
        2,
    ),
    (
        &["query", "--q=", "--q="],
        "x",
        "caliper: usage: word 3\n",
        2,
    ),
];

const NO_QUERIES: [Refused; 3] = [
    (
        &["query", "--q=select count( where x"],
        "x",
        "caliper: query: byte 14: ExpectedName\n",
        4,
    ),
    (
        &["query", "--globals=join", "--q=format xml"],
        "x",
        "caliper: query: byte 7: UnknownFormat\n",
        4,
    ),
    (
        &["query", "--q=group path"],
        "x",
        "caliper: query: byte 6: ExpectedBy\n",
        4,
    ),
];

const LAYOUTS: [Written; 5] = [
    (
        &["query", "--q="],
        TIMES,
        "function=main,time.duration=0.25\n",
    ),
    (
        &["query", "--q=FORMAT \"expand\"", "--globals=join"],
        TIMES,
        "function=main/main,time.duration=0.25\n",
    ),
    (
        &["query", "--q=format table"],
        TIMES,
        "path time.duration\nmain          0.25\n",
    ),
    (
        &["query", "--q=format tree"],
        TIMES,
        "Path time.duration\nmain          0.25\n",
    ),
    (
        &["query", "--q=format json", "--globals=off"],
        TIMES,
        "[{\"path\":\"main\",\"time.duration\":\"0.25\"}]\n",
    ),
];

const ANSWERS: [Written; 4] = [
    (COUNT, TIMES, "function=main,count=1\n"),
    (COUNT, "", ""),
    (
        &[
            "query",
            "--globals=join",
            "--q=select host where function order by host desc",
        ],
        HOSTS,
        "host=n1/n2\nhost=n0/n1/n2\n",
    ),
    (
        &[
            "query",
            "--globals=join",
            "--q=let place=first(host) select place,host,count() group by place,host",
        ],
        HOSTS,
        "place=n2,host=n1/n2,count=2\nplace=n2,host=n0/n1/n2,count=1\n",
    ),
];

fn rows() -> &'static [Written] {
    &ROWS
}

fn joined() -> &'static [Written] {
    &JOINED
}

fn faulty() -> &'static [Refused] {
    &FAULTY
}

fn usage() -> &'static [Refused] {
    &USAGE
}

fn no_queries() -> &'static [Refused] {
    &NO_QUERIES
}

fn layouts() -> &'static [Written] {
    &LAYOUTS
}

fn answers() -> &'static [Written] {
    &ANSWERS
}

/// The status of a query over a faulty stream whose read of this number fails.
fn status_by_read<R: Threads + Sync + RandomSource>(
    rt: &R,
    alloc: Global,
    read: u64,
) -> Option<u8> {
    let input = failing_source(alloc, "__rec=ctx,ref=12\n", read).ok()?;
    let mut streams = streams_over(alloc, input, 100).ok()?;
    let status = status_of(rt, alloc, PLAIN, &mut streams, &OpenGate);
    drop(streams);
    status
}

#[test]
fn rows_are_laid_out(rt: HostRuntime) {
    assert_written(&rt, rows());
}

#[test]
fn globals_are_joined(rt: HostRuntime) {
    assert_written(&rt, joined());
}

#[test]
fn faults_of_streams_are_told(rt: HostRuntime) {
    assert_refused(&rt, faulty());
}

#[test]
fn words_of_query_come_once(rt: HostRuntime) {
    assert_refused(&rt, usage());
}

#[test]
fn texts_of_queries_are_read(rt: HostRuntime) {
    assert_refused(&rt, no_queries());
}

#[test]
fn answers_are_laid_out(rt: HostRuntime) {
    assert_written(&rt, layouts());
}

#[test]
fn queries_are_answered(rt: HostRuntime) {
    assert_written(&rt, answers());
}

/// A read that fails behind a faulty line goes before that line's fault.
#[test]
fn a_read_that_fails_behind_a_fault_is_told(rt: HostRuntime) {
    let alloc = rt.alloc();
    assert_eq!(rt; status_by_read(&rt, alloc, 1), Some(5));
    assert_eq!(rt; status_by_read(&rt, alloc, 2), Some(5));
    assert_eq!(rt; status_by_read(&rt, alloc, 3), Some(3));
}
