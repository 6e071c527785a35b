//! Values and their texts, by worked rows.

use crate::table::all_hold;
use cal_value::{Kind, Text, ValueFault, Variant, parse_value, print_value};
use std::alloc::Global;

/// Texts of a kind, and what the value of each prints as.
const READ: [(Kind, &str, &str); 40] = [
    (Kind::Int, "0", "0"),
    (Kind::Int, "-0", "0"),
    (Kind::Int, "007", "7"),
    (Kind::Int, "-007", "-7"),
    (Kind::Int, "18446744073709551616", "18446744073709551616"),
    (
        Kind::Int,
        "77371252455336267181195264",
        "77371252455336267181195264",
    ),
    (
        Kind::Int,
        "-77371252455336267181195264",
        "-77371252455336267181195264",
    ),
    (
        Kind::Int,
        "00000000000000000000000000000000000000000000000000000000000000000000000000005",
        "5",
    ),
    (Kind::Uint, "0", "0"),
    (Kind::Uint, "007", "7"),
    (Kind::Uint, "18446744073709551615", "18446744073709551615"),
    (Kind::Addr, "0", "0x0"),
    (Kind::Addr, "0x0", "0x0"),
    (Kind::Addr, "00", "0x0"),
    (Kind::Addr, "ff", "0xff"),
    (Kind::Addr, "0xFF", "0xff"),
    (Kind::Addr, "0xaBcDeF09", "0xabcdef09"),
    (Kind::Addr, "00000000000000ff", "0xff"),
    (Kind::Addr, "0x00000000000000ff", "0xff"),
    (Kind::Addr, "0xffffffffffffffff", "0xffffffffffffffff"),
    (Kind::Addr, "10", "0x10"),
    (Kind::Bool, "true", "true"),
    (Kind::Bool, "1", "true"),
    (Kind::Bool, "false", "false"),
    (Kind::Bool, "0", "false"),
    (Kind::TypeName, "usr", "usr"),
    (Kind::TypeName, "int", "int"),
    (Kind::TypeName, "uint", "uint"),
    (Kind::TypeName, "string", "string"),
    (Kind::TypeName, "addr", "addr"),
    (Kind::TypeName, "double", "double"),
    (Kind::TypeName, "bool", "bool"),
    (Kind::TypeName, "type", "type"),
    (Kind::TypeName, "ptr", "ptr"),
    (Kind::Str, "", ""),
    (Kind::Str, "a=b,\\", "a=b,\\"),
    (Kind::Double, "0.250000", "0.25"),
    (Kind::Double, "no number", "no number"),
    (Kind::Usr, "0x0", "0x0"),
    (Kind::Ptr, "ä", "ä"),
];

/// Texts that are no value of their kind.
const UNREAD: [(Kind, &str); 40] = [
    (Kind::Int, ""),
    (Kind::Int, "-"),
    (Kind::Int, "+1"),
    (Kind::Int, "--1"),
    (Kind::Int, "1-"),
    (Kind::Int, " 1"),
    (Kind::Int, "1.0"),
    (Kind::Int, "0x1"),
    (Kind::Int, "٣"),
    (Kind::Int, "77371252455336267181195265"),
    (Kind::Int, "-77371252455336267181195265"),
    (
        Kind::Int,
        "11111111111111111111111111111111111111111111111111111111111111111111111111111",
    ),
    (Kind::Uint, ""),
    (Kind::Uint, "-0"),
    (Kind::Uint, "-1"),
    (Kind::Uint, "+1"),
    (Kind::Uint, "18446744073709551616"),
    (
        Kind::Uint,
        "11111111111111111111111111111111111111111111111111111111111111111111111111111",
    ),
    (Kind::Addr, ""),
    (Kind::Addr, "0x"),
    (Kind::Addr, "000000000000000ff"),
    (Kind::Addr, "0x000000000000000ff"),
    (Kind::Addr, "0xG"),
    (Kind::Addr, "g"),
    (Kind::Addr, "0X1"),
    (Kind::Addr, "x1"),
    (Kind::Addr, "0x0x1"),
    (Kind::Addr, "-1"),
    (Kind::Bool, ""),
    (Kind::Bool, "True"),
    (Kind::Bool, "tru"),
    (Kind::Bool, "truely"),
    (Kind::Bool, "01"),
    (Kind::Bool, "2"),
    (Kind::TypeName, ""),
    (Kind::TypeName, "Int"),
    (Kind::TypeName, "in"),
    (Kind::TypeName, "ints"),
    (Kind::TypeName, "str"),
    (Kind::TypeName, "1"),
];

fn read() -> &'static [(Kind, &'static str, &'static str)] {
    &READ
}

fn unread() -> &'static [(Kind, &'static str)] {
    &UNREAD
}

pub(crate) fn prints(alloc: Global, value: &Variant, wanted: &str) -> bool {
    let mut out = Text::new(alloc);
    print_value(value, &mut out).is_ok() && out.as_str() == wanted
}

fn is_read(alloc: Global, kind: Kind, text: &str, wanted: &str) -> bool {
    match parse_value(alloc, kind, text) {
        Ok(value) => prints(alloc, &value, wanted),
        Err(_) => false,
    }
}

fn is_bad(alloc: Global, kind: Kind, text: &str) -> bool {
    match parse_value(alloc, kind, text) {
        Ok(_) => false,
        Err(fault) => fault == ValueFault::BadValue,
    }
}

fn wrong_read(alloc: Global) -> Option<usize> {
    let rows = read();
    for row in 0..rows.len() {
        let (kind, text, wanted) = rows[row];
        if !is_read(alloc, kind, text, wanted) {
            return Some(row);
        }
    }
    None
}

fn wrong_unread(alloc: Global) -> Option<usize> {
    let rows = unread();
    for row in 0..rows.len() {
        if !is_bad(alloc, rows[row].0, rows[row].1) {
            return Some(row);
        }
    }
    None
}

#[test]
fn reads_and_prints(rt: HostRuntime) {
    all_hold(&rt, wrong_read(rt.alloc()));
}

#[test]
fn refuses_what_is_no_value(rt: HostRuntime) {
    all_hold(&rt, wrong_unread(rt.alloc()));
}
