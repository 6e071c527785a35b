//! Texts of kind double, as numbers and as texts.

use crate::table::all_hold;
use crate::values::prints;
use cal_value::{Kind, Variant, parse_value};
use std::alloc::Global;

/// Texts of kind double that are numbers: the nano-units, and what they print as.
const NUMBERS: [(&str, i128, &str); 15] = [
    ("0", 0, "0"),
    ("-0", 0, "0"),
    ("-0.0", 0, "0"),
    ("0.250000", 250000000, "0.25"),
    ("-1.05", -1050000000, "-1.05"),
    ("007.50", 7500000000, "7.5"),
    ("10", 10000000000, "10"),
    ("100.100", 100100000000, "100.1"),
    ("0.000000001", 1, "0.000000001"),
    ("-0.000000001", -1, "-0.000000001"),
    ("0.123456789", 123456789, "0.123456789"),
    (
        "77371252455336267",
        77371252455336267000000000,
        "77371252455336267",
    ),
    (
        "77371252455336267.181195264",
        77371252455336267181195264,
        "77371252455336267.181195264",
    ),
    (
        "-77371252455336267.181195264",
        -77371252455336267181195264,
        "-77371252455336267.181195264",
    ),
    (
        "0000000000000000000000000000000000000000000000000000000000000000000000\
     0000000000000000000000000000007.5",
        7500000000,
        "7.5",
    ),
];

/// Texts of kind double that are kept as they are.
const KEPT: [&str; 22] = [
    "0.1234567890",
    "0.0000000000",
    "1e-05",
    ".5",
    "5.",
    "-.5",
    "-5.",
    ".",
    "-",
    "+1.5",
    "--1.5",
    "1.2.3",
    "1.-5",
    "0x1",
    "1,5",
    " 1",
    "٣",
    "",
    "77371252455336267.181195265",
    "-77371252455336267.181195265",
    "77371252455336268",
    "1111111111111111111111111111111111111111111111111111111111111111111111\
     111111111111111111111111111111",
];

fn numbers() -> &'static [(&'static str, i128, &'static str)] {
    &NUMBERS
}

fn kept() -> &'static [&'static str] {
    &KEPT
}

fn is_number(alloc: Global, text: &str, nanos: i128, wanted: &str) -> bool {
    match parse_value(alloc, Kind::Double, text) {
        Ok(Variant::Fixed(found)) => {
            found == nanos && prints(alloc, &Variant::Fixed(nanos), wanted)
        }
        _ => false,
    }
}

fn is_kept(alloc: Global, text: &str) -> bool {
    match parse_value(alloc, Kind::Double, text) {
        Ok(value) => matches!(value, Variant::Real(_)) && prints(alloc, &value, text),
        Err(_) => false,
    }
}

fn wrong_number(alloc: Global) -> Option<usize> {
    let rows = numbers();
    for row in 0..rows.len() {
        let (text, nanos, wanted) = rows[row];
        if !is_number(alloc, text, nanos, wanted) {
            return Some(row);
        }
    }
    None
}

fn wrong_kept(alloc: Global) -> Option<usize> {
    let rows = kept();
    for row in 0..rows.len() {
        if !is_kept(alloc, rows[row]) {
            return Some(row);
        }
    }
    None
}

#[test]
fn decimals_of_kind_double_are_numbers(rt: HostRuntime) {
    all_hold(&rt, wrong_number(rt.alloc()));
    all_hold(&rt, wrong_kept(rt.alloc()));
}

#[test]
fn the_largest_numbers_are_printed(rt: HostRuntime) {
    let (least, most) = (Variant::Fixed(i128::MIN), Variant::Fixed(i128::MAX));
    let alloc = rt.alloc();
    assert!(rt; prints(alloc, &most, "170141183460469231731687303715.884105727"));
    assert!(rt; prints(alloc, &least, "-170141183460469231731687303715.884105728"));
}
