//! `replay` and `journal` of scripts whose journal, or whose text, no schedule changes.

use crate::journals::{Sizes, handed_back};
use crate::rows::{
    Counted, Refused, Words, Written, assert_counted, assert_refused, assert_written,
};
use crate::runs::{GLOBALS, GLOBALS_TEXT, GROUPED, GROUPED_TEXT, REFUSED, SHARED};
use crate::scripts::{
    ESCAPES, ESCAPES_TEXT, FIRST, FIRST_JOURNAL, FIRST_TEXT, NESTED, NESTED_TEXT,
};

const REPLAY: Words = &["replay"];

const BY_SCRIPT: Words = &["replay", "--clock=script"];

const BY_CLOCK: Words = &["replay", "--clock=real"];

const JOURNAL: Words = &["journal"];

const JOURNAL_BY_CLOCK: Words = &["journal", "--clock=real"];

/// A thread whose two events are timed.
const TIMED: &str = "\
attribute function string 276
channel t event,timer,trace
thread
begin function main
end function
";

/// Its journal by a clock that shows 100, 90 and 95.
const TIMED_JOURNAL: &str = "\
journal real
start 0 100
line 0 1 done 0 90
line 0 2 done 0 95
end
";

const TIMED_TEXT: &str = "\
__rec=node,id=12,attr=10,data=65,parent=3
__rec=node,id=13,attr=8,data=event.begin#function,parent=12
__rec=node,id=14,attr=10,data=65,parent=2
__rec=node,id=15,attr=8,data=time.duration.ns,parent=14
__rec=ctx,attr=13=15,data=main=0
__rec=node,id=16,attr=10,data=276,parent=3
__rec=node,id=17,attr=8,data=function,parent=16
__rec=node,id=18,attr=17,data=main
__rec=node,id=19,attr=8,data=event.end#function,parent=12
__rec=node,id=20,attr=8,data=time.inclusive.duration.ns,parent=14
__rec=ctx,ref=18,attr=19=15=20,data=main=5=5
";

/// Four threads with one profile, flushed by each.
const PROFILED: &str = "\
attribute function string 276
channel profile event,timer,aggregate
thread
begin function main
tick 10
end function
flush profile
thread
begin function main
tick 20
end function
flush profile
thread
flush profile
begin function main
tick 30
end function
thread
begin function main
tick 40
end function
flush profile
flush profile
";

const PROFILED_TEXT: &str = "\
__rec=node,id=12,attr=10,data=65,parent=1
__rec=node,id=13,attr=8,data=count,parent=12
__rec=node,id=14,attr=8,data=sum#time.duration.ns,parent=12
__rec=node,id=15,attr=8,data=min#time.duration.ns,parent=12
__rec=node,id=16,attr=8,data=max#time.duration.ns,parent=12
__rec=ctx,attr=13=14=15=16,data=4=0=0=0
__rec=node,id=17,attr=10,data=276,parent=3
__rec=node,id=18,attr=8,data=function,parent=17
__rec=node,id=19,attr=18,data=main
__rec=ctx,ref=19,attr=13=14=15=16,data=4=100=10=40
";

const ALONE: [Written; 11] = [
    (REPLAY, FIRST, FIRST_TEXT),
    (BY_SCRIPT, FIRST, FIRST_TEXT),
    (BY_CLOCK, FIRST, FIRST_TEXT),
    (JOURNAL, FIRST, FIRST_JOURNAL),
    (REPLAY, "attribute function string 276\n", ""),
    (REPLAY, "", ""),
    (JOURNAL, "", "journal script\nend\n"),
    (REPLAY, ESCAPES, ESCAPES_TEXT),
    (REPLAY, NESTED, NESTED_TEXT),
    (REPLAY, GLOBALS, GLOBALS_TEXT),
    (REPLAY, GROUPED, GROUPED_TEXT),
];

const BY_THEIR_CLOCK: [Written; 2] = [
    (JOURNAL_BY_CLOCK, TIMED, TIMED_JOURNAL),
    (BY_CLOCK, TIMED, TIMED_TEXT),
];

const FLUSHED: [Written; 1] = [(REPLAY, PROFILED, PROFILED_TEXT)];

/// The journal of a run with a refused line.
const REFUSED_JOURNAL: &str = "\
journal script
start 0 -
line 0 1 done 0 -
line 0 2 mismatch:0 0 -
line 0 3 done 0 -
end
";

const REFUSED_LINES: [Counted; 2] = [
    (REPLAY, REFUSED, FIRST_TEXT, "caliper: refused lines: 1\n"),
    (
        JOURNAL,
        REFUSED,
        REFUSED_JOURNAL,
        "caliper: refused lines: 1\n",
    ),
];

/// A line that stands where none may, and a name that isn't declared.
const MISPLACED: &str = "channel t trace\nbegin function main\n";

const UNNAMED: &str = "attribute function string 276\nchannel t trace\nthread\nbegin loop x\n";

/// Scripts with a fault; no journal may stand behind one.
const FAULTY: [Refused; 6] = [
    (REPLAY, MISPLACED, "caliper: line 2: Misplaced\n", 3),
    (REPLAY, UNNAMED, "caliper: line 4: UnknownName\n", 3),
    (REPLAY, SHARED, "caliper: line 9: UnknownWord\n", 3),
    (JOURNAL, MISPLACED, "caliper: line 2: Misplaced\n", 3),
    (JOURNAL, UNNAMED, "caliper: line 4: UnknownName\n", 3),
    (JOURNAL, SHARED, "caliper: line 9: UnknownWord\n", 3),
];

const SECOND: &str = "caliper: usage: word 2\n";

const THIRD: &str = "caliper: usage: word 3\n";

const USAGE: [Refused; 6] = [
    (&["replay", "--clock=fast"], FIRST, SECOND, 2),
    (&["replay", "--clock="], FIRST, SECOND, 2),
    (&["journal", "now"], FIRST, SECOND, 2),
    (&["journal", "now", "--clock=real"], FIRST, SECOND, 2),
    (&["replay", "--clock=real", "--clock=real"], FIRST, THIRD, 2),
    (&["journal", "--clock=script", "x"], FIRST, THIRD, 2),
];

fn alone() -> &'static [Written] {
    &ALONE
}

fn by_their_clock() -> &'static [Written] {
    &BY_THEIR_CLOCK
}

fn flushed() -> &'static [Written] {
    &FLUSHED
}

fn refused_lines() -> &'static [Counted] {
    &REFUSED_LINES
}

fn faulty() -> &'static [Refused] {
    &FAULTY
}

fn usage() -> &'static [Refused] {
    &USAGE
}

#[test]
fn one_thread_is_written_as_it_went(rt: HostRuntime) {
    assert_written(&rt, alone());
}

#[test]
fn the_clock_of_the_thread_is_read(rt: HostRuntime) {
    assert_written(&rt, by_their_clock());
}

#[test]
fn flushes_in_any_order_give_one_profile(rt: HostRuntime) {
    for _round in 0..8u32 {
        assert_written(&rt, flushed());
    }
}

#[test]
fn refused_lines_of_a_run_are_counted(rt: HostRuntime) {
    assert_counted(&rt, refused_lines());
}

#[test]
fn faults_of_a_script_are_told(rt: HostRuntime) {
    assert_refused(&rt, faulty());
}

#[test]
fn words_that_break_the_rule_are_told(rt: HostRuntime) {
    assert_refused(&rt, usage());
}

#[test]
fn the_journal_of_a_run_is_handed_back(rt: HostRuntime) {
    let by_script = Sizes {
        ops: 0,
        threads: 1,
        real: false,
    };
    let by_clock = Sizes {
        ops: 0,
        threads: 1,
        real: true,
    };
    let found = handed_back(&rt, rt.alloc(), REPLAY, FIRST);
    assert_eq!(rt; found, Some(by_script));
    let found = handed_back(&rt, rt.alloc(), JOURNAL_BY_CLOCK, FIRST);
    assert_eq!(rt; found, Some(by_clock));
}
