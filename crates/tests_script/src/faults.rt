use crate::drawn::{Case, all_hold, fault_of, wrong_case};
use cal_script::{ScriptKind, read_script};
use cal_value::OutOfMemory;
use std::alloc::Global;

const PLACES: [Case; 14] = [
    ("", None),
    ("\n#\n\n# a comment\n", None),
    (" ", Some((1, ScriptKind::UnknownWord))),
    ("Thread", Some((1, ScriptKind::UnknownWord))),
    ("snapshot\r", Some((1, ScriptKind::UnknownWord))),
    ("snapshot", Some((1, ScriptKind::Misplaced))),
    ("tick", Some((1, ScriptKind::Misplaced))),
    ("key a", Some((1, ScriptKind::Misplaced))),
    ("value a", Some((1, ScriptKind::Misplaced))),
    ("thread\nattribute", Some((2, ScriptKind::Misplaced))),
    ("thread\nglobal", Some((2, ScriptKind::Misplaced))),
    (
        "channel p aggregate\nthread\nkey a",
        Some((3, ScriptKind::Misplaced)),
    ),
    (
        "channel p aggregate\nkey path\nkey path",
        Some((3, ScriptKind::Misplaced)),
    ),
    (
        "channel p aggregate\nvalue region.depth\nvalue region.depth",
        Some((3, ScriptKind::Misplaced)),
    ),
];

#[test]
fn lines_stand_where_they_may(rt: HostRuntime) {
    all_hold(&rt, wrong_case(rt.alloc(), &PLACES));
}

const SECOND: [Case; 1] = [(
    "channel p aggregate\nkey path\nvalue region.depth\nchannel q aggregate\n\
     value region.count\nkey path\n",
    None,
)];

#[test]
fn a_second_channel_has_lines_of_its_own(rt: HostRuntime) {
    all_hold(&rt, wrong_case(rt.alloc(), &SECOND));
}

const ARITIES: [Case; 16] = [
    ("attribute a string", Some((1, ScriptKind::WrongArity))),
    ("attribute a string 0 0", Some((1, ScriptKind::WrongArity))),
    ("attribute a  string 0", Some((1, ScriptKind::WrongArity))),
    ("attribute  string 0", Some((1, ScriptKind::WrongArity))),
    ("attribute a string ", Some((1, ScriptKind::WrongArity))),
    ("channel t", Some((1, ScriptKind::WrongArity))),
    ("global a", Some((1, ScriptKind::WrongArity))),
    ("channel p trace\nkey", Some((2, ScriptKind::WrongArity))),
    (
        "channel p trace\nvalue a ",
        Some((2, ScriptKind::WrongArity)),
    ),
    ("thread ", Some((1, ScriptKind::WrongArity))),
    ("thread\nbegin a", Some((2, ScriptKind::WrongArity))),
    ("thread\nset  1", Some((2, ScriptKind::WrongArity))),
    ("thread\nend", Some((2, ScriptKind::WrongArity))),
    ("thread\nsnapshot ", Some((2, ScriptKind::WrongArity))),
    ("thread\nflush a b", Some((2, ScriptKind::WrongArity))),
    ("thread\ntick 1 2", Some((2, ScriptKind::WrongArity))),
];

#[test]
fn words_are_missing_or_too_many(rt: HostRuntime) {
    all_hold(&rt, wrong_case(rt.alloc(), &ARITIES));
}

const NAMES: [Case; 12] = [
    ("attribute a/b string 0", Some((1, ScriptKind::BadName))),
    ("attribute path string 0", Some((1, ScriptKind::BadName))),
    (
        "attribute region.count int 0",
        Some((1, ScriptKind::BadName)),
    ),
    ("attribute cali.x int 0", Some((1, ScriptKind::BadName))),
    (
        "channel cali.x trace\nchannel path trace\nchannel count trace",
        None,
    ),
    ("channel a# trace", Some((1, ScriptKind::BadName))),
    (
        "attribute a int 0\nattribute a string 0",
        Some((2, ScriptKind::DuplicateName)),
    ),
    ("attribute a int 0\nchannel a trace", None),
    (
        "channel a trace\nchannel a trace",
        Some((2, ScriptKind::DuplicateName)),
    ),
    ("thread\nend a/b", Some((2, ScriptKind::UnknownName))),
    (
        "channel t trace\nthread\nbegin t 1",
        Some((3, ScriptKind::UnknownName)),
    ),
    (
        "attribute a int 0\nthread\nflush a",
        Some((3, ScriptKind::UnknownName)),
    ),
];

#[test]
fn names_are_refused(rt: HostRuntime) {
    all_hold(&rt, wrong_case(rt.alloc(), &NAMES));
}

const KINDS: [Case; 11] = [
    ("attribute a usr 0", Some((1, ScriptKind::BadKind))),
    ("attribute a type 0", Some((1, ScriptKind::BadKind))),
    ("attribute a Int 0", Some((1, ScriptKind::BadKind))),
    ("attribute a string 65535", Some((1, ScriptKind::BadKind))),
    ("attribute a double 1", Some((1, ScriptKind::BadKind))),
    ("attribute a bool 65535\nattribute b double 65534", None),
    ("attribute a int 65536", Some((1, ScriptKind::BadProps))),
    ("attribute a string 65537", Some((1, ScriptKind::BadProps))),
    ("attribute a int -1", Some((1, ScriptKind::BadProps))),
    ("attribute a int 0000000000000000000000000000012", None),
    (
        "attribute a int 18446744073709551617",
        Some((1, ScriptKind::BadProps)),
    ),
];

#[test]
fn attributes_have_kinds_and_properties(rt: HostRuntime) {
    all_hold(&rt, wrong_case(rt.alloc(), &KINDS));
}

const SERVICES: [Case; 9] = [
    ("channel a event,timer", Some((1, ScriptKind::BadService))),
    ("channel a trace,", Some((1, ScriptKind::BadService))),
    ("channel a trace,trace", Some((1, ScriptKind::BadService))),
    (
        "channel a region.depth,trace,region.depth",
        Some((1, ScriptKind::BadService)),
    ),
    ("channel a trace,sampler", Some((1, ScriptKind::BadService))),
    (
        "channel a region.count,timer,aggregate,event,region.depth,trace",
        None,
    ),
    (
        "channel a trace\nkey a",
        Some((2, ScriptKind::NotAggregate)),
    ),
    (
        "channel a trace\nvalue nosuch",
        Some((2, ScriptKind::NotAggregate)),
    ),
    (
        "channel a trace\nthread\nflush a",
        Some((3, ScriptKind::NotAggregate)),
    ),
];

#[test]
fn channels_have_services(rt: HostRuntime) {
    all_hold(&rt, wrong_case(rt.alloc(), &SERVICES));
}

const KEYS: [Case; 9] = [
    (
        "attribute a int 0\nchannel p aggregate\nkey path a event.end#a",
        None,
    ),
    (
        "attribute a int 0\nchannel p aggregate\nkey a path",
        Some((3, ScriptKind::BadName)),
    ),
    (
        "channel p aggregate\nkey path path",
        Some((2, ScriptKind::BadName)),
    ),
    (
        "channel p aggregate\nvalue path",
        Some((2, ScriptKind::UnknownName)),
    ),
    (
        "channel p aggregate\nkey count",
        Some((2, ScriptKind::UnknownName)),
    ),
    (
        "attribute a int 0\nchannel p aggregate\nkey event.end#b",
        Some((3, ScriptKind::UnknownName)),
    ),
    (
        "attribute a int 0\nchannel p aggregate\nkey event.end#a#a",
        Some((3, ScriptKind::UnknownName)),
    ),
    (
        "channel p aggregate\nvalue region.depth region.depth",
        Some((2, ScriptKind::DuplicateName)),
    ),
    (
        "channel p aggregate\nkey time.duration.ns time.inclusive.duration.ns\nvalue region.count",
        None,
    ),
];

#[test]
fn keys_and_values_are_known(rt: HostRuntime) {
    all_hold(&rt, wrong_case(rt.alloc(), &KEYS));
}

const GLOBALS: [Case; 6] = [
    ("attribute h string 512\nglobal h n1", None),
    (
        "attribute h string 512\nglobal h n1\nglobal h n1",
        Some((3, ScriptKind::DuplicateName)),
    ),
    (
        "attribute f string 276\nglobal f x",
        Some((2, ScriptKind::NotGlobal)),
    ),
    ("global f x", Some((1, ScriptKind::UnknownName))),
    (
        "attribute f string 0\nglobal f \\",
        Some((2, ScriptKind::NotGlobal)),
    ),
    (
        "attribute h int 512\nglobal h x",
        Some((2, ScriptKind::BadValue)),
    ),
];

#[test]
fn globals_are_of_their_attributes(rt: HostRuntime) {
    all_hold(&rt, wrong_case(rt.alloc(), &GLOBALS));
}

const LEFTMOST: [Case; 8] = [
    ("attribute a/b usr x", Some((1, ScriptKind::BadName))),
    ("attribute a usr x", Some((1, ScriptKind::BadKind))),
    ("attribute a string x", Some((1, ScriptKind::BadProps))),
    ("channel a/b x", Some((1, ScriptKind::BadName))),
    (
        "channel p aggregate\nvalue x region.depth region.depth",
        Some((2, ScriptKind::UnknownName)),
    ),
    (
        "channel p aggregate\nvalue region.depth region.depth x",
        Some((2, ScriptKind::DuplicateName)),
    ),
    (
        "thread\nbegin nosuch \\",
        Some((2, ScriptKind::UnknownName)),
    ),
    (
        "attribute a int 0\nthread\nset a x\\",
        Some((3, ScriptKind::BadEscape)),
    ),
];

#[test]
fn the_leftmost_word_decides(rt: HostRuntime) {
    all_hold(&rt, wrong_case(rt.alloc(), &LEFTMOST));
}

#[test]
fn bytes_that_are_no_text(rt: HostRuntime) {
    let comment = fault_of(rt.alloc(), b"\n# \xff\n");
    assert!(rt; comment == Ok(Some((2, ScriptKind::NotText))), "a comment");
    let line = fault_of(rt.alloc(), b"thread\nnosuch \xff\n");
    assert!(rt; line == Ok(Some((2, ScriptKind::NotText))), "a line");
}

/// Whether the first fault of a script is told so.
fn is_told(alloc: Global, script: &[u8], wanted: &str) -> Result<bool, OutOfMemory> {
    let Err(end) = read_script(alloc, script) else {
        return Ok(false);
    };
    Ok(format!(in alloc; "{end}")?.as_str() == wanted)
}

#[test]
fn faults_have_their_names(rt: HostRuntime) {
    assert!(rt; ScriptKind::NotText as u8 == 1);
    assert!(rt; ScriptKind::NotGlobal as u8 == 15);
    assert!(rt; ScriptKind::TooMany.name() == "TooMany");
    assert!(rt; is_told(rt.alloc(), b"tick", "line 1: Misplaced") == Ok(true));
}
