//! Queries and records, and what the answers show.
ghost use Rattle.cal_ql.specs.Valid.{IsValidQuery};

use cal_engine::answer;
use cal_ql::{Query, parse_query};
use cal_rowset::Rowset;
use cal_value::{
    Attribute, Entry, Kind, OutOfMemory, Props, Rec, Records, Seq, Text, Variant, parse_value,
    print_value,
};
use std::alloc::Global;
use std::process::Abort;

/// A record: its path, whose entries belong to the hierarchy, and its immediates, a name and a
/// value in turn. A value that begins like a number is one, with a `.` a decimal.
pub(crate) type Row = (
    &'static [&'static str],
    &'static [(&'static str, &'static str)],
);

/// A query, and the rows and the columns that are expected.
pub(crate) type Case = (&'static str, &'static str, &'static str);

/// Answers each query on the records, and compares the answer with what is expected.
pub(crate) fn check(rt: &impl Abort, alloc: Global, rows: &[Row], cases: &'static [Case]) {
    assert_eq!(rt;
        wrong_case(alloc, rows, cases),
        None,
        "the first wrong query"
    );
}

fn wrong_case(alloc: Global, rows: &[Row], cases: &'static [Case]) -> Option<&'static str> {
    match records(alloc, rows) {
        Ok(records) => wrong_answer(alloc, &records, cases),
        Err(_) => Some("no records"),
    }
}

fn wrong_answer(alloc: Global, records: &Records, cases: &'static [Case]) -> Option<&'static str> {
    for row in 0..cases.len() {
        if !answers(alloc, records, &cases[row]) {
            return Some(cases[row].0);
        }
    }
    None
}

fn answers(alloc: Global, records: &Records, case: &Case) -> bool {
    match parse_query(alloc, case.0) {
        Ok(query) => is_answered(alloc, &query, records, case),
        Err(_) => false,
    }
}

fn is_answered(alloc: Global, query: &Query, records: &Records, case: &Case) -> bool
    requires { IsValidQuery query.now }
{
    match answer(alloc, query, records) {
        Ok(answer) => has_rows(alloc, &answer, case.1) && has_columns(alloc, &answer, case.2),
        Err(_) => false,
    }
}

pub(crate) fn has_rows(alloc: Global, answer: &Rowset, wanted: &str) -> bool {
    let mut out = Text::new(alloc);
    put_rows(answer, &mut out).is_ok() && out.as_str() == wanted
}

fn has_columns(alloc: Global, answer: &Rowset, wanted: &str) -> bool {
    let mut out = Text::new(alloc);
    put_columns(answer, &mut out).is_ok() && out.as_str() == wanted
}

fn put_records(alloc: Global, rows: &[Row], all: &mut Seq<Rec>) -> Result<(), OutOfMemory> {
    for row in rows {
        all.push(record(alloc, row)?)?;
    }
    Ok(())
}

fn records(alloc: Global, rows: &[Row]) -> Result<Records, OutOfMemory> {
    let mut all = Seq::new(alloc);
    put_records(alloc, rows, &mut all)?;
    Ok(Records {
        rows: all,
        globals: Rec {
            paths: Seq::new(alloc),
            imms: Seq::new(alloc),
        },
    })
}

fn paths_of(alloc: Global, names: &[&str]) -> Result<Seq<Seq<Entry>>, OutOfMemory> {
    let mut paths = Seq::new(alloc);
    if !names.is_empty() {
        paths.push(path_of(alloc, names)?)?;
    }
    Ok(paths)
}

pub(crate) fn record(alloc: Global, row: &Row) -> Result<Rec, OutOfMemory> {
    let paths = paths_of(alloc, row.0)?;
    Ok(Rec {
        paths,
        imms: immediates(alloc, row.1)?,
    })
}

fn function(alloc: Global, name: &str) -> Result<Entry, OutOfMemory> {
    let value = Variant::Text(Text::from_str(alloc, name)?);
    Ok(Entry {
        attr: attribute(alloc, "region", Kind::Str, 276)?,
        value,
    })
}

fn path_of(alloc: Global, names: &[&str]) -> Result<Seq<Entry>, OutOfMemory> {
    let mut path = Seq::new(alloc);
    for name in names {
        path.push(function(alloc, name)?)?;
    }
    Ok(path)
}

fn attribute(alloc: Global, name: &str, kind: Kind, props: u32) -> Result<Attribute, OutOfMemory> {
    Ok(Attribute {
        name: Text::from_str(alloc, name)?,
        kind,
        props: Props(props),
    })
}

/// The immediate of a name and a text, which is one of its kind.
fn immediate(alloc: Global, name: &str, text: &str) -> Result<Entry, OutOfMemory> {
    let kind = kind_of(text);
    let attr = attribute(alloc, name, kind, 1)?;
    match parse_value(alloc, kind, text) {
        Ok(value) => Ok(Entry { attr, value }),
        Err(_) => Err(OutOfMemory),
    }
}

fn immediates(alloc: Global, pairs: &[(&str, &str)]) -> Result<Seq<Entry>, OutOfMemory> {
    let mut imms = Seq::new(alloc);
    for pair in pairs {
        imms.push(immediate(alloc, pair.0, pair.1)?)?;
    }
    Ok(imms)
}

fn kind_of(text: &str) -> Kind {
    match text.as_bytes() {
        [b'0'..=b'9' | b'-', ..] => {
            if text.as_bytes().iter().any(|byte| *byte == b'.') {
                Kind::Double
            } else {
                Kind::Int
            }
        }
        _ => Kind::Str,
    }
}

/// The values of a path, each behind a slash.
fn put_path(path: &[Entry], out: &mut Text) -> Result<(), OutOfMemory> {
    for entry in path {
        out.push_str("/")?;
        print_value(&entry.value, out)?;
    }
    Ok(())
}

fn put_paths(paths: &[Seq<Entry>], out: &mut Text) -> Result<(), OutOfMemory> {
    for path in paths {
        put_path(path.as_slice(), out)?;
    }
    Ok(())
}

fn put_immediate(entry: &Entry, out: &mut Text) -> Result<(), OutOfMemory> {
    out.push_str(" ")?;
    out.push_str(entry.attr.name.as_str())?;
    out.push_str("=")?;
    print_value(&entry.value, out)
}

fn put_immediates(entries: &[Entry], out: &mut Text) -> Result<(), OutOfMemory> {
    for entry in entries {
        put_immediate(entry, out)?;
    }
    Ok(())
}

/// The entries of its paths, and then its immediates, with `;` behind them.
fn put_row(row: &Rec, out: &mut Text) -> Result<(), OutOfMemory> {
    put_paths(row.paths.as_slice(), out)?;
    put_immediates(row.imms.as_slice(), out)?;
    out.push_str(";")
}

fn put_rows(answer: &Rowset, out: &mut Text) -> Result<(), OutOfMemory> {
    for row in answer.rows.rows.as_slice() {
        put_row(row, out)?;
    }
    Ok(())
}

/// The headers of the columns, each behind a blank.
fn put_columns(answer: &Rowset, out: &mut Text) -> Result<(), OutOfMemory> {
    for column in answer.columns.as_slice() {
        out.push_str(" ")?;
        out.push_str(column.header.as_str())?;
    }
    Ok(())
}
