//! Reads and writes that fail in turn.

use crate::calls::Failing;
use crate::rows::{Row, Words, assert_rows_by};
use crate::scripts::{FIRST, FIRST_TEXT, FOUR, FOUR_TEXT};

const LITTLE: Words = &["live", "--room=1"];

const UNREAD: [Row; 2] = [
    (LITTLE, FIRST, "", "caliper: read failed\n", 5),
    (LITTLE, FOUR, "", "caliper: read failed\n", 5),
];

const UNWRITTEN: [Row; 2] = [
    (LITTLE, FIRST, "", "caliper: write failed\n", 6),
    (LITTLE, FOUR, "", "caliper: write failed\n", 6),
];

const WHOLE: [Row; 2] = [
    (LITTLE, FIRST, FIRST_TEXT, "", 0),
    (LITTLE, FOUR, FOUR_TEXT, "", 0),
];

fn unread() -> &'static [Row] {
    &UNREAD
}

fn unwritten() -> &'static [Row] {
    &UNWRITTEN
}

fn whole() -> &'static [Row] {
    &WHOLE
}

fn by_read(number: &'static [u64]) -> Failing {
    Failing {
        reads: number,
        writes: &[],
    }
}

fn by_write(number: &'static [u64]) -> Failing {
    Failing {
        reads: &[],
        writes: number,
    }
}

/// The script comes with the first read, and its end with the second.
#[test]
fn a_failed_read_is_told(rt: HostRuntime) {
    assert_rows_by(&rt, by_read(&[1]), unread());
    assert_rows_by(&rt, by_read(&[2]), unread());
    assert_rows_by(&rt, by_read(&[3]), whole());
}

/// There is one write.
#[test]
fn a_failed_write_is_told(rt: HostRuntime) {
    assert_rows_by(&rt, by_write(&[1]), unwritten());
    assert_rows_by(&rt, by_write(&[2]), whole());
}
