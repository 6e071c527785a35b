//! Queries over what both triggers let through.
ghost use Rattle.cal_ql.specs.Valid.{IsValidQuery};

use crate::records::{Row, Word, records};
use crate::watching::watched;
use cal_ql::{Query, parse_query};
use cal_rowset::Rowset;
use cal_trigger::{Trigger, is_in_main, is_slow, main_conditions, slow_conditions};
use cal_value::{Entry, Kind, OutOfMemory, Rec, Seq, Text, print_value};
use std::alloc::Global;

const MAIN: Word = ("function", Kind::Str, "main");

const A: Word = ("function", Kind::Str, "a");

const B: Word = ("function", Kind::Str, "b");

const SHORT: Word = ("time.duration.ns", Kind::Uint, "999");

const LONG: Word = ("time.duration.ns", Kind::Uint, "1000");

const ROWS: [Row; 6] = [
    (&[MAIN, B], &[]),
    (&[MAIN, A], &[LONG]),
    (&[MAIN], &[]),
    (&[A], &[LONG]),
    (&[MAIN, A], &[SHORT]),
    (&[MAIN], &[]),
];

/// The answer of a query over those rows that are in `main`, and over those that are slow.
fn both(alloc: Global, query: &Query, rows: &[Rec], out: &mut Text) -> Result<(), OutOfMemory>
    requires { IsValidQuery query.now }
{
    let main = Trigger::new(main_conditions(alloc)?, is_in_main);
    put_rows(&watched(alloc, query, &main, rows)?, out)?;
    out.push_str("|")?;
    let slow = Trigger::new(slow_conditions(alloc)?, is_slow);
    put_rows(&watched(alloc, query, &slow, rows)?, out)
}

fn is_shown(alloc: Global, query: &Query, wanted: &str) -> bool
    requires { IsValidQuery query.now }
{
    let mut out = Text::new(alloc);
    match records(alloc, &ROWS) {
        Ok(rows) => both(alloc, query, &rows, &mut out).is_ok() && out.as_str() == wanted,
        Err(_) => false,
    }
}

/// Whether a query's rows over both triggers are these.
fn shows(alloc: Global, text: &str, wanted: &str) -> bool {
    match parse_query(alloc, text) {
        Ok(query) => is_shown(alloc, &query, wanted),
        Err(_) => false,
    }
}

/// The values of entries, each behind a mark.
fn put_entries(mark: &str, entries: &[Entry], out: &mut Text) -> Result<(), OutOfMemory> {
    for entry in entries {
        out.push_str(mark)?;
        print_value(&entry.value, out)?;
    }
    Ok(())
}

fn put_paths(paths: &[Seq<Entry>], out: &mut Text) -> Result<(), OutOfMemory> {
    for path in paths {
        put_entries("/", path.as_slice(), out)?;
    }
    Ok(())
}

/// The values of each row's paths, and then of its immediates, with `;` behind them.
fn put_rows(answer: &Rowset, out: &mut Text) -> Result<(), OutOfMemory> {
    for row in answer.rows.rows.as_slice() {
        put_paths(row.paths.as_slice(), out)?;
        put_entries("=", row.imms.as_slice(), out)?;
        out.push_str(";")?;
    }
    Ok(())
}

#[test]
fn groups_are_those_of_what_is_let_through(rt: HostRuntime) {
    let wanted = "/main/b=1;/main/a=2;/main=2;|/main/a=1;/a=1;";
    assert!(rt; shows(rt.alloc(), "select path,count() group by path", wanted));
}

#[test]
fn where_asks_of_what_is_let_through(rt: HostRuntime) {
    let wanted = "/main/a=1000;|/main/a=1000;/a=1000;";
    assert!(rt; shows(rt.alloc(), "where time.duration.ns=1000", wanted));
}

#[test]
fn a_trigger_is_asked_before_let(rt: HostRuntime) {
    let alloc = rt.alloc();
    let longer = "let time.duration.ns=scale(time.duration.ns,2) where time.duration.ns>1000";
    let wanted = "/main/a=1000=2000;/main/a=999=1998;|/main/a=1000=2000;/a=1000=2000;";
    assert!(rt; shows(alloc, longer, wanted));
}
