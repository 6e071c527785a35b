//! Lines, their fields and their escapes.

use crate::table::all_hold;
use cal_line::{
    Field, FieldEnd, FieldPieces, Fields, Piece, Splitter, ended_line, escape,
    escaped_spells_the_text, lines_end_at_newlines, next_line, one_list_of_fields, one_text,
    split_fields, unescape, written_fields_are_read,
};
use cal_value::{OutOfMemory, Text};
use std::alloc::Global;
use std::borrow::CowStr;

/// Lines, and each key with its values in brackets, or `bad`.
const LINES: [(&str, &str); 16] = [
    ("__rec=node,id=12,attr=8", "__rec[node]id[12]attr[8]"),
    ("__rec=ctx,ref=13=14,data=", "__rec[ctx]ref[13][14]data[]"),
    ("k=a\\,b\\=c\\\\", "k[a,b=c\\]"),
    ("k=\\n\\m\\é", "k[\nmé]"),
    ("\\,\\==1==2", ",=[1][][2]"),
    ("a=é,b=ß=\\ü", "a[é]b[ß][ü]"),
    ("", "bad"),
    ("a", "bad"),
    ("=1", "bad"),
    ("a=1,", "bad"),
    (",a=1", "bad"),
    ("a=1,,b=2", "bad"),
    ("a=1,b", "bad"),
    ("a=1\\", "bad"),
    ("a\\=1", "bad"),
    ("\\", "bad"),
];

fn lines() -> &'static [(&'static str, &'static str)] {
    &LINES
}

fn put_value(value: &str, out: &mut Text) -> Result<(), OutOfMemory> {
    out.push_str("[")?;
    out.push_str(value)?;
    out.push_str("]")
}

fn put_field(field: &Field, out: &mut Text) -> Result<(), OutOfMemory> {
    out.push_str(field.key.as_str())?;
    for value in field.values.as_slice() {
        put_value(value.as_str(), out)?;
    }
    Ok(())
}

fn put_fields(fields: &[Field], out: &mut Text) -> Result<(), OutOfMemory> {
    for field in fields {
        put_field(field, out)?;
    }
    Ok(())
}

fn are_shown(alloc: Global, fields: &[Field], wanted: &str) -> bool {
    let mut out = Text::new(alloc);
    put_fields(fields, &mut out).is_ok() && out.as_str() == wanted
}

fn is_copied(alloc: Global, line: &str, wanted: &str) -> bool {
    match split_fields(alloc, line) {
        Ok(fields) => are_shown(alloc, fields.as_slice(), wanted),
        Err(end) => end == FieldEnd::BadField && wanted == "bad",
    }
}

fn wrong_copy(alloc: Global) -> Option<usize> {
    let rows = lines();
    for row in 0..rows.len() {
        if !is_copied(alloc, rows[row].0, rows[row].1) {
            return Some(row);
        }
    }
    None
}

fn put_piece(piece: &Piece, out: &mut Text) -> Result<(), OutOfMemory> {
    out.push_str("[")?;
    piece.append_to(out)?;
    out.push_str("]")
}

fn put_pieces(field: &FieldPieces, out: &mut Text) -> Result<(), OutOfMemory> {
    field.key().append_to(out)?;
    for number in 0..field.value_count() {
        put_piece(&field.value(number), out)?;
    }
    Ok(())
}

fn put_split(fields: &Fields, out: &mut Text) -> Result<(), OutOfMemory> {
    for place in 0..fields.len() {
        put_pieces(&fields.get(place), out)?;
    }
    Ok(())
}

fn split_shown(alloc: Global, fields: &Fields, wanted: &str) -> bool {
    let mut out = Text::new(alloc);
    put_split(fields, &mut out).is_ok() && out.as_str() == wanted
}

fn is_split(alloc: Global, splitter: &mut Splitter, line: &str, wanted: &str) -> bool {
    match splitter.split(line) {
        Ok(fields) => split_shown(alloc, &fields, wanted),
        Err(end) => end == FieldEnd::BadField && wanted == "bad",
    }
}

fn wrong_split(alloc: Global, splitter: &mut Splitter) -> Option<usize> {
    let rows = lines();
    for row in 0..rows.len() {
        if !is_split(alloc, splitter, rows[row].0, rows[row].1) {
            return Some(row);
        }
    }
    None
}

#[test]
fn lines_have_their_fields(rt: HostRuntime) {
    all_hold(&rt, wrong_copy(rt.alloc()));
}

#[test]
fn one_splitter_reads_line_after_line(rt: HostRuntime) {
    let mut splitter = Splitter::new(rt.alloc());
    all_hold(&rt, wrong_split(rt.alloc(), &mut splitter));
    drop(splitter);
}

/// Whether a piece is this text, and lies in the line just where it should.
fn is_piece(alloc: Global, piece: &Piece, text: &str, lent: bool) -> bool {
    match piece.text(alloc) {
        Ok(CowStr::Borrowed(found)) => lent && found == text,
        Ok(CowStr::Owned(found)) => !lent && found.as_str() == text,
        Err(_) => false,
    }
}

fn is_text(alloc: Global, piece: &Piece, text: &str) -> bool {
    match piece.to_text(alloc) {
        Ok(found) => found.as_str() == text,
        Err(_) => false,
    }
}

/// Values, and whether each lies in the line.
const PIECES: [(&str, bool); 4] = [("plain", true), ("\n", false), ("", true), ("é", true)];

fn pieces() -> &'static [(&'static str, bool)] {
    &PIECES
}

fn wrong_piece(alloc: Global, field: &FieldPieces) -> Option<usize> {
    let rows = pieces();
    for place in 0..field.value_count().min(rows.len()) {
        let value = field.value(place);
        let (text, lent) = rows[place];
        if !is_piece(alloc, &value, text, lent) || !is_text(alloc, &value, text) {
            return Some(place);
        }
    }
    (field.value_count() != rows.len()).then_some(rows.len())
}

fn has_pieces(alloc: Global, fields: &Fields) -> bool {
    fields.len() == 1
        && is_piece(alloc, &fields.get(0).key(), "a,b", false)
        && wrong_piece(alloc, &fields.get(0)).is_none()
}

fn stay_in_the_line(alloc: Global, splitter: &mut Splitter) -> bool {
    match splitter.split("a\\,b=plain=\\n==é") {
        Ok(fields) => has_pieces(alloc, &fields),
        Err(_) => false,
    }
}

#[test]
fn a_text_without_an_escape_stays_in_the_line(rt: HostRuntime) {
    let mut splitter = Splitter::new(rt.alloc());
    assert!(rt; stay_in_the_line(rt.alloc(), &mut splitter));
    drop(splitter);
}

/// Texts, and each escaped.
const ESCAPES: [(&str, &str); 4] = [
    ("", ""),
    ("main", "main"),
    ("a,b=c\\d\ne", "a\\,b\\=c\\\\d\\ne"),
    ("né,\n", "né\\,\\n"),
];

fn escapes() -> &'static [(&'static str, &'static str)] {
    &ESCAPES
}

fn is_escaped(alloc: Global, text: &str, wanted: &str) -> bool {
    let mut out = Text::new(alloc);
    out.push_str("x=").is_ok()
        && escape(text, &mut out).is_ok()
        && out.as_str().strip_prefix("x=") == Some(wanted)
}

fn reads_as(alloc: Global, escaped: &str, text: &str) -> bool {
    match unescape(alloc, escaped) {
        Ok(read) => read.as_str() == text,
        Err(_) => false,
    }
}

fn is_bad(alloc: Global, escaped: &str) -> bool {
    match unescape(alloc, escaped) {
        Ok(_) => false,
        Err(end) => end == FieldEnd::BadField,
    }
}

fn wrong_escape(alloc: Global) -> Option<usize> {
    let rows = escapes();
    for row in 0..rows.len() {
        let (text, escaped) = rows[row];
        if !is_escaped(alloc, text, escaped) || !reads_as(alloc, escaped, text) {
            return Some(row);
        }
    }
    None
}

#[test]
fn texts_are_escaped_and_read_back(rt: HostRuntime) {
    all_hold(&rt, wrong_escape(rt.alloc()));
    assert!(rt; reads_as(rt.alloc(), "a,b=c", "a,b=c"));
    assert!(rt; is_bad(rt.alloc(), "a\\"));
    assert!(rt; is_bad(rt.alloc(), "\\\\\\"));
}

/// The lines of an input, with a semicolon behind each.
fn lines_shown(input: &[u8], out: &mut Text) -> Result<(), OutOfMemory> {
    let mut rest = input;
    while !rest.is_empty() {
        let (line, after) = next_line(rest);
        out.push_str(std::str::from_utf8(line).unwrap_or("no text"))?;
        out.push_str(";")?;
        rest = after;
    }
    Ok(())
}

const INPUTS: [(&[u8], &str); 5] = [
    (b"", ""),
    (b"a", "a;"),
    (b"a\n", "a;"),
    (b"\n\nb\r\nc", ";;b\r;c;"),
    (b"a\n\n", "a;;"),
];

fn inputs() -> &'static [(&'static [u8], &'static str)] {
    &INPUTS
}

fn has_lines(alloc: Global, input: &[u8], wanted: &str) -> bool {
    let mut out = Text::new(alloc);
    lines_shown(input, &mut out).is_ok() && out.as_str() == wanted
}

fn wrong_input(alloc: Global) -> Option<usize> {
    let rows = inputs();
    for row in 0..rows.len() {
        if !has_lines(alloc, rows[row].0, rows[row].1) {
            return Some(row);
        }
    }
    None
}

#[test]
fn an_input_has_its_lines(rt: HostRuntime) {
    all_hold(&rt, wrong_input(rt.alloc()));
    assert!(rt; ended_line(b"ab").is_none());
    assert!(rt; matches!(ended_line(b"a\nb"), Some((_, b"b"))));
}

#[test]
fn the_laws_of_lines_hold() {
    lines_end_at_newlines();
    one_list_of_fields();
    one_text();
    escaped_spells_the_text();
    written_fields_are_read();
}
