//! What `live` writes of scripts whose text no schedule changes.

use crate::rows::{Row, Words, assert_rows};
use crate::scripts::{FIRST, FIRST_TEXT, FOUR, FOUR_TEXT, REFUSED, TIMED, TIMED_TEXT};

const LIVE: Words = &["live"];

const LITTLE: Words = &["live", "--room=1"];

const ROWS: [Row; 9] = [
    (LIVE, FIRST, FIRST_TEXT, "", 0),
    (LITTLE, FIRST, FIRST_TEXT, "", 0),
    (LIVE, "", "", "", 0),
    (LITTLE, "", "", "", 0),
    (LITTLE, "attribute function string 276\n", "", "", 0),
    (LITTLE, "channel p aggregate\n", "", "", 0),
    (LITTLE, "thread\nsnapshot\nthread\nthread\n", "", "", 0),
    (
        LITTLE,
        "channel p aggregate\nthread\nflush p\nflush p\nthread\nflush p\n",
        "",
        "",
        0,
    ),
    (
        LITTLE,
        REFUSED,
        FIRST_TEXT,
        "caliper: refused lines: 1\n",
        1,
    ),
];

const BY_CLOCK: [Row; 2] = [
    (
        &["live", "--clock=real", "--room=1"],
        TIMED,
        TIMED_TEXT,
        "",
        0,
    ),
    (
        &["live", "--room=1024", "--clock=real"],
        TIMED,
        TIMED_TEXT,
        "",
        0,
    ),
];

const PROFILED: [Row; 1] = [(LITTLE, FOUR, FOUR_TEXT, "", 0)];

fn rows() -> &'static [Row] {
    &ROWS
}

fn by_clock() -> &'static [Row] {
    &BY_CLOCK
}

fn profiled() -> &'static [Row] {
    &PROFILED
}

#[test]
fn scripts_are_written(rt: HostRuntime) {
    assert_rows(&rt, rows());
}

#[test]
fn the_clock_of_the_thread_is_read(rt: HostRuntime) {
    assert_rows(&rt, by_clock());
}

#[test]
fn parts_in_any_order_give_one_profile(rt: HostRuntime) {
    for _round in 0..20u32 {
        assert_rows(&rt, profiled());
    }
}
