//! What is refused: words, and each kind of fault.

use crate::rows::{Refused, Words, assert_refused};

const NAMES: Words = &["names"];

const USAGE: [Refused; 6] = [
    (&[], "thread\n", "caliper: usage: word 1\n", 2),
    (&["serial"], "thread\n", "caliper: usage: word 1\n", 2),
    (&["Names"], "thread\n", "caliper: usage: word 1\n", 2),
    (&["names", "x"], "thread\n", "caliper: usage: word 2\n", 2),
    (&["names", "names"], "x", "caliper: usage: word 2\n", 2),
    (&["x", "names", "y"], "", "caliper: usage: word 1\n", 2),
];

const FAULTY: [Refused; 10] = [
    (NAMES, " ", "caliper: line 1: UnknownWord\n", 3),
    (
        NAMES,
        "thread\nattribute a int 1\n",
        "caliper: line 2: UnknownWord\n",
        3,
    ),
    (
        NAMES,
        "#\ndeclare a int 1\nthread\n",
        "caliper: line 2: Misplaced\n",
        3,
    ),
    (NAMES, "thread 1\n", "caliper: line 1: WrongArity\n", 3),
    (
        NAMES,
        "thread\n\ndeclare a int\n",
        "caliper: line 3: WrongArity\n",
        3,
    ),
    (
        NAMES,
        "thread\ndeclare path int 1\n",
        "caliper: line 2: BadName\n",
        3,
    ),
    (
        NAMES,
        "thread\ndeclare a ptr 1\n",
        "caliper: line 2: BadKind\n",
        3,
    ),
    (
        NAMES,
        "thread\ndeclare a double 1\n",
        "caliper: line 2: BadKind\n",
        3,
    ),
    (
        NAMES,
        "thread\ndeclare a int 1\ndeclare a int 65536\nx\n",
        "caliper: line 3: BadProps\n",
        3,
    ),
    (NAMES, "thread\r\n", "caliper: line 1: UnknownWord\n", 3),
];

fn usage() -> &'static [Refused] {
    &USAGE
}

fn faulty() -> &'static [Refused] {
    &FAULTY
}

#[test]
fn words_that_break_the_rule_are_told(rt: HostRuntime) {
    assert_refused(&rt, usage());
}

#[test]
fn first_faults_are_told(rt: HostRuntime) {
    assert_refused(&rt, faulty());
}
