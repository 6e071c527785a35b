//! Answers over streams at hand, by worked rows.
ghost use Rattle.std.specs.Prelude.{◌<◌, ◌^◌, length};
ghost use Rattle.cal_ql.specs.Valid.{IsValidQuery};

use cal_multi::{ManyEnd, answer_many};
use cal_ql::{Query, parse_query};
use cal_query::lay_out;
use cal_read::StreamKind;
use cal_seeds::Seeds;
use cal_value::{OutOfMemory, Text};
use std::alloc::Global;
use std::process::Abort;
use std::thread::Threads;

/// A query, its streams, and the text of its answer, or why there is none.
type Row = (
    &'static str,
    &'static [&'static str],
    Result<&'static str, ManyEnd>,
);

/// A row in `main`.
const MAIN: &str = "\
__rec=node,id=12,attr=10,data=276,parent=3
__rec=node,id=13,attr=8,data=function,parent=12
__rec=node,id=14,attr=13,data=main
__rec=ctx,ref=14
";

/// Rows in `solve`, in `main` and in `solve`, by nodes of other numbers.
const OTHERS: &str = "\
__rec=node,id=30,attr=10,data=276,parent=3
__rec=node,id=12,attr=8,data=function,parent=30
__rec=node,id=13,attr=12,data=solve
__rec=node,id=14,attr=12,data=main
__rec=ctx,ref=13
__rec=ctx,ref=14
__rec=ctx,ref=13
";

/// A fault on line 2.
const UNKNOWN: &str = "\n__rec=ctx,ref=12\n";

/// A fault on line 1.
const NO_FIELDS: &str = "x";

const COUNT: &str = "select function,count() group by function";

const ROWS: [Row; 8] = [
    (COUNT, &[MAIN, MAIN], Ok("function=main,count=2\n")),
    (COUNT, &[MAIN, "", MAIN], Ok("function=main,count=2\n")),
    (
        COUNT,
        &[MAIN, OTHERS],
        Ok("function=main,count=2\nfunction=solve,count=2\n"),
    ),
    (
        COUNT,
        &[OTHERS, MAIN],
        Ok("function=solve,count=2\nfunction=main,count=2\n"),
    ),
    (
        "",
        &[OTHERS, MAIN, OTHERS],
        Ok(
            "function=solve\nfunction=main\nfunction=solve\nfunction=main\n\
            function=solve\nfunction=main\nfunction=solve\n",
        ),
    ),
    (COUNT, &[], Ok("")),
    ("", &[], Ok("")),
    (
        COUNT,
        &[MAIN, UNKNOWN, NO_FIELDS],
        Err(ManyEnd::BadFile {
            file: 1,
            line: 2,
            kind: StreamKind::UnknownNode,
        }),
    ),
];

/// The bytes of streams.
fn files(alloc: Global, streams: &[&str]) -> Result<Vec<Vec<u8>>, OutOfMemory> {
    let mut all = Vec::with_capacity(alloc, streams.len())?;
    for stream in streams {
        all.push(Vec::from_slice(alloc, stream.as_bytes())?)?;
    }
    Ok(all)
}

/// The layout of a query's answer over files, by these seeds.
fn answer_text<R: Threads + Sync>(
    rt: &R,
    alloc: Global,
    seeds: Seeds,
    query: &Query,
    files: &[Vec<u8>],
) -> Result<Text, ManyEnd>
    requires query { IsValidQuery query.now }
    requires few { length files.now < 2 ^ 32 }
{
    let answer = answer_many(rt, alloc, seeds, query, files)?;
    Ok(lay_out(alloc, query.format, &answer)?)
}

/// What a row comes to by these seeds. A text that is no query, and too many files, are told as want
/// of memory.
fn text<R: Threads + Sync>(
    rt: &R,
    alloc: Global,
    seeds: Seeds,
    row: &Row,
) -> Result<Text, ManyEnd> {
    let Ok(query) = parse_query(alloc, row.0) else {
        return Err(ManyEnd::OutOfMemory);
    };
    let files = files(alloc, row.1)?;
    if files.len() > 100 {
        return Err(ManyEnd::OutOfMemory);
    }
    answer_text(rt, alloc, seeds, &query, files.as_slice())
}

fn is_right<R: Threads + Sync>(rt: &R, alloc: Global, seeds: Seeds, row: &Row) -> bool {
    match (text(rt, alloc, seeds, row), row.2) {
        (Ok(text), Ok(wanted)) => text.as_str() == wanted,
        (Err(end), Err(wanted)) => end == wanted,
        _ => false,
    }
}

/// Whether each row comes to what it should by these seeds.
fn are_right<R: Threads + Sync>(rt: &R, alloc: Global, seeds: Seeds, rows: &[Row]) -> bool {
    for row in rows {
        if !is_right(rt, alloc, seeds, row) {
            return false;
        }
    }
    true
}

#[test]
fn answers_are_over_all_files_in_their_order(rt: HostRuntime) {
    let rows = &ROWS;
    for (place, row) in rows.iter().enumerate() {
        let right = is_right(&rt, rt.alloc(), Seeds::fixed(), row);
        assert_eq!(rt; right, true, "row {place}");
    }
}

#[test]
fn other_seeds_give_the_same_answers(rt: HostRuntime) {
    let others = Seeds {
        start: 5,
        factor: 7,
    };
    let right = are_right(&rt, rt.alloc(), others, &ROWS);
    assert_eq!(rt; right, true);
}
