//! `gen`.

use crate::rows::{Refused, Written, assert_refused, assert_written};

const FOUR_LINES: &str = "\
attribute function string 276
attribute iteration int 21
channel profile event,timer,aggregate
thread
tick 5758
begin function f11
end function
begin function f2
";

const SCRIPTS: [Written; 2] = [
    (
        &["gen", "--seed=1", "--threads=1", "--lines=4"],
        "channel",
        FOUR_LINES,
    ),
    (
        &[
            "gen",
            "--lines=004",
            "--print=script",
            "--seed=0000000001",
            "--threads=1",
        ],
        "",
        FOUR_LINES,
    ),
];

const SUMMARIES: [Written; 4] = [
    (
        &[
            "gen",
            "--seed=1",
            "--threads=1",
            "--lines=4",
            "--print=summary",
        ],
        "channel",
        "threads 1\nlines 4\nnodes 2\nsnapshots 3\ngroups 2\nbytes 485\n",
    ),
    (
        &[
            "gen",
            "--print=summary",
            "--seed=1",
            "--threads=1",
            "--lines=0",
        ],
        "",
        "threads 1\nlines 0\nnodes 0\nsnapshots 0\ngroups 0\nbytes 0\n",
    ),
    (
        &[
            "gen",
            "--seed=2147483647",
            "--threads=64",
            "--lines=1",
            "--print=summary",
        ],
        "",
        "threads 64\nlines 64\nnodes 15\nsnapshots 58\ngroups 1\nbytes 308\n",
    ),
    (
        &[
            "gen",
            "--seed=3",
            "--threads=2",
            "--lines=20",
            "--print=summary",
        ],
        "",
        "threads 2\nlines 40\nnodes 12\nsnapshots 35\ngroups 13\nbytes 1466\n",
    ),
];

const SECOND: &str = "caliper: usage: word 2\n";

const THIRD: &str = "caliper: usage: word 3\n";

const USAGE: [Refused; 14] = [
    (&["gen"], "", SECOND, 2),
    (&["gen", "--seed=1"], "", THIRD, 2),
    (&["gen", "--seed=2147483648"], "", SECOND, 2),
    (&["gen", "--seed=00000000001"], "", SECOND, 2),
    (&["gen", "--threads=65"], "", SECOND, 2),
    (&["gen", "--threads=0"], "", SECOND, 2),
    (&["gen", "--lines=1048577"], "", SECOND, 2),
    (&["gen", "--lines=+1"], "", SECOND, 2),
    (&["gen", "--seed=1", "--seed=1"], "", THIRD, 2),
    (&["gen", "--lines=524289", "--threads=2"], "", THIRD, 2),
    (&["gen", "--print=script", "--print=script"], "", THIRD, 2),
    (&["gen", "--print=summary", "--print=script"], "", THIRD, 2),
    (&["gen", "--print=Summary"], "", SECOND, 2),
    (
        &["gen", "--print=summary", "--seed=1"],
        "",
        "caliper: usage: word 4\n",
        2,
    ),
];

fn scripts() -> &'static [Written] {
    &SCRIPTS
}

fn summaries() -> &'static [Written] {
    &SUMMARIES
}

fn usage() -> &'static [Refused] {
    &USAGE
}

#[test]
fn scripts_are_generated(rt: HostRuntime) {
    assert_written(&rt, scripts());
}

#[test]
fn runs_of_scripts_are_summed_up(rt: HostRuntime) {
    assert_written(&rt, summaries());
}

#[test]
fn words_of_gen_are_refused(rt: HostRuntime) {
    assert_refused(&rt, usage());
}
