//! The words of `live`: which are taken, and which word breaks the rule; and faults of the script.

use crate::rows::{Row, assert_rows};
use crate::scripts::{FIRST, FIRST_TEXT};

const TAKEN: [Row; 6] = [
    (&["live", "--clock=script"], FIRST, FIRST_TEXT, "", 0),
    (&["live", "--clock=real"], FIRST, FIRST_TEXT, "", 0),
    (&["live", "--room=1024"], FIRST, FIRST_TEXT, "", 0),
    (&["live", "--room=0016"], FIRST, FIRST_TEXT, "", 0),
    (
        &["live", "--clock=real", "--room=2"],
        FIRST,
        FIRST_TEXT,
        "",
        0,
    ),
    (
        &["live", "--room=2", "--clock=script"],
        FIRST,
        FIRST_TEXT,
        "",
        0,
    ),
];

const FIRST_WORD: &str = "caliper: usage: word 1\n";

const SECOND: &str = "caliper: usage: word 2\n";

const THIRD: &str = "caliper: usage: word 3\n";

const REFUSED: [Row; 15] = [
    (&[], FIRST, "", FIRST_WORD, 2),
    (&["replay"], FIRST, "", FIRST_WORD, 2),
    (&["live", "x"], FIRST, "", SECOND, 2),
    (&["live", "--room"], FIRST, "", SECOND, 2),
    (&["live", "--room="], FIRST, "", SECOND, 2),
    (&["live", "--room=0"], FIRST, "", SECOND, 2),
    (&["live", "--room=1025"], FIRST, "", SECOND, 2),
    (&["live", "--room=00001"], FIRST, "", SECOND, 2),
    (&["live", "--room=+1"], FIRST, "", SECOND, 2),
    (&["live", "--clock=fast"], FIRST, "", SECOND, 2),
    (&["live", "--room=1", "x"], FIRST, "", THIRD, 2),
    (&["live", "--room=1", "--room=1"], FIRST, "", THIRD, 2),
    (
        &["live", "--clock=real", "--clock=real"],
        FIRST,
        "",
        THIRD,
        2,
    ),
    (
        &["live", "--clock=real", "--room=0", "--room=1"],
        FIRST,
        "",
        THIRD,
        2,
    ),
    (&["live", "x"], "begin", "", SECOND, 2),
];

/// No journal may stand behind a script.
const FAULTY: [Row; 3] = [
    (
        &["live"],
        "channel t trace\nbegin function main\n",
        "",
        "caliper: line 2: Misplaced\n",
        3,
    ),
    (
        &["live", "--room=1"],
        "channel t trace\nthread\nflush t\n",
        "",
        "caliper: line 3: NotAggregate\n",
        3,
    ),
    (
        &["live"],
        "thread\njournal script\nstart 0 -\nend\n",
        "",
        "caliper: line 2: UnknownWord\n",
        3,
    ),
];

fn taken() -> &'static [Row] {
    &TAKEN
}

fn refused() -> &'static [Row] {
    &REFUSED
}

fn faulty() -> &'static [Row] {
    &FAULTY
}

#[test]
fn options_come_once_and_in_any_order(rt: HostRuntime) {
    assert_rows(&rt, taken());
}

#[test]
fn the_word_that_breaks_the_rule_is_told(rt: HostRuntime) {
    assert_rows(&rt, refused());
}

#[test]
fn faults_of_a_script_are_told(rt: HostRuntime) {
    assert_rows(&rt, faulty());
}
