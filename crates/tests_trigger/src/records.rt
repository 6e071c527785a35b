//! Records, written as names, kinds and texts.

use cal_value::{Attribute, Entry, Kind, OutOfMemory, Props, Rec, Seq, Text, parse_value};
use std::alloc::Global;

/// An entry's name and kind, and the text of its value.
pub(crate) type Word = (&'static str, Kind, &'static str);

/// A record: its path, and its immediates.
pub(crate) type Row = (&'static [Word], &'static [Word]);

/// The properties of what belongs to the hierarchy, as functions do.
fn props_of(name: &str) -> Props {
    if name == "function" {
        Props(276)
    } else {
        Props(0)
    }
}

/// An entry; a text that is no value of the kind gives none.
fn entry(alloc: Global, word: &Word) -> Result<Entry, OutOfMemory> {
    let name = Text::from_str(alloc, word.0)?;
    match parse_value(alloc, word.1, word.2) {
        Ok(value) => Ok(Entry {
            attr: Attribute {
                name,
                kind: word.1,
                props: props_of(word.0),
            },
            value,
        }),
        Err(_) => Err(OutOfMemory),
    }
}

fn entries(alloc: Global, words: &[Word]) -> Result<Seq<Entry>, OutOfMemory> {
    let mut entries = Seq::new(alloc);
    for word in words {
        entries.push(entry(alloc, word)?)?;
    }
    Ok(entries)
}

fn paths(alloc: Global, words: &[Word]) -> Result<Seq<Seq<Entry>>, OutOfMemory> {
    let mut paths = Seq::new(alloc);
    if !words.is_empty() {
        paths.push(entries(alloc, words)?)?;
    }
    Ok(paths)
}

/// The record of a path and immediates.
pub(crate) fn record(alloc: Global, path: &[Word], imms: &[Word]) -> Result<Rec, OutOfMemory> {
    let paths = paths(alloc, path)?;
    Ok(Rec {
        paths,
        imms: entries(alloc, imms)?,
    })
}

pub(crate) fn records(alloc: Global, rows: &[Row]) -> Result<Vec<Rec>, OutOfMemory> {
    let mut records = Vec::new(alloc);
    for row in rows {
        records.push(record(alloc, row.0, row.1)?)?;
    }
    Ok(records)
}
