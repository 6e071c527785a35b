//! Every kind of value against both triggers, and where an entry may stand.

use crate::asking::{Decided, answers, is_slow_or_timeless};
use crate::records::{Word, record};
use cal_trigger::is_slow;
use cal_value::Kind;
use std::alloc::Global;

/// A kind, the text of a value, and whether it is `main` and at least `1000`. Texts are ordered by
/// their bytes. A decimal is a number, and any other text of its kind stands behind all numbers.
type Case = (Kind, &'static str, bool, bool);

const CASES: [Case; 22] = [
    (Kind::Str, "main", true, true),
    (Kind::Str, "1000", false, true),
    (Kind::Str, "999", false, true),
    (Kind::Str, "0999", false, false),
    (Kind::Str, "", false, false),
    (Kind::Usr, "main", true, true),
    (Kind::Usr, "100", false, false),
    (Kind::Ptr, "main", true, true),
    (Kind::Ptr, "1", false, false),
    (Kind::Double, "main", true, true),
    (Kind::Double, "999.999999999", false, false),
    (Kind::Double, "1000", false, true),
    (Kind::Double, "1e2", false, true),
    (Kind::Int, "999", false, false),
    (Kind::Int, "1000", false, true),
    (Kind::Int, "-1000", false, false),
    (Kind::Uint, "999", false, false),
    (Kind::Uint, "1000", false, true),
    (Kind::Addr, "0xfff", false, false),
    (Kind::Addr, "1000", false, true),
    (Kind::Bool, "true", false, false),
    (Kind::TypeName, "int", false, false),
];

fn cases() -> &'static [Case] {
    &CASES
}

/// What both triggers answer on the record of a path and immediates; nothing where there is none.
fn told(alloc: Global, path: &[Word], imms: &[Word]) -> Option<Decided> {
    let rec = record(alloc, path, imms).ok()?;
    answers(alloc, &rec).ok()
}

fn is_told(alloc: Global, path: &[Word], imms: &[Word], main: bool, slow: bool) -> bool {
    match told(alloc, path, imms) {
        Some(told) => told.main == main && told.slow == slow,
        None => false,
    }
}

/// Whether both triggers answer so on a record that has the value by both names.
fn is_answered(alloc: Global, case: &Case) -> bool {
    let words = [
        ("function", case.0, case.1),
        ("time.duration.ns", case.0, case.1),
    ];
    is_told(alloc, &[], &words, case.2, case.3)
}

fn first_wrong(alloc: Global) -> Option<&'static str> {
    for case in cases() {
        if !is_answered(alloc, case) {
            return Some(case.1);
        }
    }
    None
}

#[test]
fn every_kind_of_value_is_decided(rt: HostRuntime) {
    assert_eq!(rt; first_wrong(rt.alloc()), None, "the first wrong text");
}

const MAIN: Word = ("function", Kind::Str, "main");

const OTHER: Word = ("function", Kind::Str, "other");

const SHORT: Word = ("time.duration.ns", Kind::Uint, "999");

const LONG: Word = ("time.duration.ns", Kind::Uint, "1000");

#[test]
fn one_of_several_entries_is_enough(rt: HostRuntime) {
    let alloc = rt.alloc();
    assert!(rt; is_told(alloc, &[MAIN, OTHER], &[LONG, SHORT], true, true));
    assert!(rt; is_told(alloc, &[OTHER, OTHER], &[SHORT, SHORT], false, false));
}

#[test]
fn paths_and_immediates_are_asked(rt: HostRuntime) {
    let alloc = rt.alloc();
    assert!(rt; is_told(alloc, &[OTHER], &[MAIN], true, false));
    assert!(rt; is_told(alloc, &[LONG], &[SHORT], false, true));
    assert!(rt; is_told(alloc, &[], &[], false, false));
}

#[test]
fn a_record_without_the_attribute_is_not_slow(rt: HostRuntime) {
    let Ok(rec) = record(rt.alloc(), &[MAIN], &[]) else {
        return;
    };
    assert!(rt; !is_slow(&rec));
    assert!(rt; is_slow_or_timeless(&rec));
}
