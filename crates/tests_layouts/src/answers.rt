//! Answers of rows and columns, and their texts in each layout.

use cal_jsonfmt::json_text;
use cal_rowset::{Column, Rowset};
use cal_tabfmt::{expand_text, table_text};
use cal_treefmt::tree_text;
use cal_value::{Attribute, Entry, Kind, OutOfMemory, Props, Rec, Records, Seq, Text, Variant};
use std::alloc::Global;
use std::process::Abort;

/// A value in a table of rows.
pub(crate) enum Value<'a> {
    Text(&'a str),
    Int(i128),
    Uint(u64),
    Fixed(i128),
}

/// An entry in a table of rows: its name, its properties and its value.
pub(crate) type Item<'a> = (&'a str, u32, Value<'a>);

/// A row: its paths, and its immediates.
pub(crate) type Row<'a> = (&'a [&'a [Item<'a>]], &'a [Item<'a>]);

/// Rows, columns as headers and names, whether a row shows its own names, and the text of the
/// layout.
pub(crate) type Case<'a> = (&'a [Row<'a>], &'a [(&'a str, &'a str)], bool, &'a str);

/// Which layout an answer is to have.
#[derive(Clone, Copy)]
pub(crate) enum Layout {
    Lines,
    Table,
    Tree,
    Json,
}

fn laid_out(alloc: Global, layout: Layout, answer: &Rowset) -> Result<Text, OutOfMemory> {
    match layout {
        Layout::Lines => expand_text(alloc, answer),
        Layout::Table => table_text(alloc, answer),
        Layout::Tree => tree_text(alloc, answer),
        Layout::Json => json_text(alloc, answer),
    }
}

fn is_laid_out(
    alloc: Global,
    layout: Layout,
    answer: &Rowset,
    wanted: &str,
) -> Result<bool, OutOfMemory> {
    let text = laid_out(alloc, layout, answer)?;
    Ok(text.as_str() == wanted)
}

fn holds(alloc: Global, layout: Layout, case: &Case<'_>) -> Result<bool, OutOfMemory> {
    let answer = answer(alloc, case.0, case.1, case.2)?;
    let held = is_laid_out(alloc, layout, &answer, case.3);
    drop(answer);
    held
}

fn wrong_case(
    alloc: Global,
    layout: Layout,
    cases: &[Case<'_>],
) -> Result<Option<usize>, OutOfMemory> {
    for row in 0..cases.len() {
        if !holds(alloc, layout, &cases[row])? {
            return Ok(Some(row));
        }
    }
    Ok(None)
}

/// Each case has the text of this layout.
pub(crate) fn check(rt: &impl Abort, alloc: Global, layout: Layout, cases: &[Case<'_>]) {
    assert_eq!(rt;
        wrong_case(alloc, layout, cases),
        Ok(None),
        "the first wrong case"
    );
}

/// The answer of these rows and columns, each a header and a name.
fn answer(
    alloc: Global,
    rows: &[Row<'_>],
    columns: &[(&str, &str)],
    all: bool,
) -> Result<Rowset, OutOfMemory> {
    let columns = columns_of(alloc, columns)?;
    let rows = records_of(alloc, rows)?;
    Ok(Rowset { rows, columns, all })
}

fn column(alloc: Global, header: &str, name: &str) -> Result<Column, OutOfMemory> {
    Ok(Column {
        header: Text::from_str(alloc, header)?,
        name: Text::from_str(alloc, name)?,
    })
}

fn columns_of(alloc: Global, columns: &[(&str, &str)]) -> Result<Seq<Column>, OutOfMemory> {
    let mut made = Seq::new(alloc);
    for pair in columns {
        made.push(column(alloc, pair.0, pair.1)?)?;
    }
    Ok(made)
}

fn put_rows(alloc: Global, rows: &[Row<'_>], records: &mut Records) -> Result<(), OutOfMemory> {
    for row in rows {
        records.rows.push(record(alloc, row.0, row.1)?)?;
    }
    Ok(())
}

fn records_of(alloc: Global, rows: &[Row<'_>]) -> Result<Records, OutOfMemory> {
    let mut records = Records {
        rows: Seq::new(alloc),
        globals: Rec {
            paths: Seq::new(alloc),
            imms: Seq::new(alloc),
        },
    };
    match put_rows(alloc, rows, &mut records) {
        Ok(()) => Ok(records),
        Err(end) => Err(end),
    }
}

fn put_paths(alloc: Global, paths: &[&[Item<'_>]], record: &mut Rec) -> Result<(), OutOfMemory> {
    for path in paths {
        record.paths.push(entries(alloc, path)?)?;
    }
    Ok(())
}

fn record(alloc: Global, paths: &[&[Item<'_>]], imms: &[Item<'_>]) -> Result<Rec, OutOfMemory> {
    let mut record = Rec {
        paths: Seq::new(alloc),
        imms: entries(alloc, imms)?,
    };
    match put_paths(alloc, paths, &mut record) {
        Ok(()) => Ok(record),
        Err(end) => Err(end),
    }
}

fn entries(alloc: Global, items: &[Item<'_>]) -> Result<Seq<Entry>, OutOfMemory> {
    let mut made = Seq::new(alloc);
    for item in items {
        made.push(entry(alloc, item.0, item.1, &item.2)?)?;
    }
    Ok(made)
}

fn attribute(alloc: Global, name: &str, kind: Kind, props: u32) -> Result<Attribute, OutOfMemory> {
    Ok(Attribute {
        name: Text::from_str(alloc, name)?,
        kind,
        props: Props(props),
    })
}

fn value_of(alloc: Global, value: &Value<'_>) -> Result<Variant, OutOfMemory> {
    match value {
        Value::Text(text) => Ok(Variant::Text(Text::from_str(alloc, text)?)),
        Value::Int(number) => Ok(Variant::Int(*number)),
        Value::Uint(number) => Ok(Variant::Uint(*number)),
        Value::Fixed(nanos) => Ok(Variant::Fixed(*nanos)),
    }
}

fn kind_of(value: &Value<'_>) -> Kind {
    match value {
        Value::Text(_) => Kind::Str,
        Value::Int(_) => Kind::Int,
        Value::Uint(_) => Kind::Uint,
        Value::Fixed(_) => Kind::Double,
    }
}

fn entry(alloc: Global, name: &str, props: u32, value: &Value<'_>) -> Result<Entry, OutOfMemory> {
    let attr = attribute(alloc, name, kind_of(value), props)?;
    Ok(Entry {
        attr,
        value: value_of(alloc, value)?,
    })
}
