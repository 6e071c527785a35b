//! What is listed: the worked rows, names in byte order, and the edges of the format.

use crate::rows::{Listed, assert_listed};

const ROWS: [Listed; 3] = [
    (
        "thread\ndeclare a int 1\ndeclare a uint 1\ndeclare a int 1\n",
        "attribute a int 1\n",
        "caliper: refused lines: 1\n",
    ),
    (
        "thread\ndeclare b string 276\nthread\ndeclare b string 276\ndeclare c bool 0\n",
        "attribute b string 276\nattribute c bool 0\n",
        "",
    ),
    (
        "thread\ndeclare a int 1\nthread\ndeclare b int 1\ndeclare b int 2\ndeclare b int 3\n",
        "attribute a int 1\nattribute b int 1\n",
        "caliper: refused lines: 2\n",
    ),
];

/// Names that differ in a byte, in case and in length, by two threads; and each kind.
const ORDERED: [Listed; 2] = [
    (
        "thread\ndeclare ab int 0\ndeclare a_b int 1\ndeclare a:b int 2\ndeclare a.b int 3\n\
         thread\ndeclare a-b int 4\ndeclare a int 5\ndeclare A int 6\ndeclare 0 int 7\n\
         declare Ab int 8\n",
        "attribute 0 int 7\nattribute A int 6\nattribute Ab int 8\nattribute a int 5\n\
         attribute a-b int 4\nattribute a.b int 3\nattribute a:b int 2\nattribute a_b int 1\n\
         attribute ab int 0\n",
        "",
    ),
    (
        "thread\ndeclare f bool 0\ndeclare e double 2\ndeclare d addr 21\ndeclare c uint 1\n\
         declare b int 65535\ndeclare a string 65534\n",
        "attribute a string 65534\nattribute b int 65535\nattribute c uint 1\nattribute d addr 21\n\
         attribute e double 2\nattribute f bool 0\n",
        "",
    ),
];

const EDGES: [Listed; 6] = [
    ("", "", ""),
    ("thread", "", ""),
    ("thread\nthread\n\nthread\n", "", ""),
    ("\n# a comment\n\n#\n", "", ""),
    (
        "# one\nthread\n\n#\ndeclare x int 007",
        "attribute x int 7\n",
        "",
    ),
    (
        "thread\ndeclare path2 int 1\nthread\nthread\ndeclare calibre int 1\nthread\n",
        "attribute calibre int 1\nattribute path2 int 1\n",
        "",
    ),
];

/// Names of two hundred bytes that differ in the last one.
const LONG: [Listed; 1] = [(
    "thread\ndeclare 0123456789012345678901234567890123456789012345678901234567890123456\
     78901234567890123456789012345678901234567890123456789012345678901234567890123456789\
     01234567890123456789012345678901234567890123456782 int 65535\nthread\ndeclare 01234\
     56789012345678901234567890123456789012345678901234567890123456789012345678901234567\
     89012345678901234567890123456789012345678901234567890123456789012345678901234567890\
     12345678901234567890123456781 int 1\ndeclare 01234567890123456789012345678901234567\
     89012345678901234567890123456789012345678901234567890123456789012345678901234567890\
     1234567890123456789012345678901234567890123456789012345678901234567890123456781 int \
     2\ndeclare 012345678901234567890123456789012345678901234567890123456789012345678901\
     23456789012345678901234567890123456789012345678901234567890123456789012345678901234\
     567890123456789012345678901234567890123456782 int 65535\n",
    "attribute 0123456789012345678901234567890123456789012345678901234567890123456789012\
     34567890123456789012345678901234567890123456789012345678901234567890123456789012345\
     67890123456789012345678901234567890123456781 int 1\nattribute 012345678901234567890\
     12345678901234567890123456789012345678901234567890123456789012345678901234567890123\
     45678901234567890123456789012345678901234567890123456789012345678901234567890123456\
     7890123456782 int 65535\n",
    "caliper: refused lines: 1\n",
)];

fn rows() -> &'static [Listed] {
    &ROWS
}

fn ordered() -> &'static [Listed] {
    &ORDERED
}

fn edges() -> &'static [Listed] {
    &EDGES
}

fn long() -> &'static [Listed] {
    &LONG
}

#[test]
fn what_stands_of_each_name_is_listed(rt: HostRuntime) {
    assert_listed(&rt, rows());
}

#[test]
fn names_are_listed_in_byte_order(rt: HostRuntime) {
    assert_listed(&rt, ordered());
}

#[test]
fn texts_may_say_little(rt: HostRuntime) {
    assert_listed(&rt, edges());
}

#[test]
fn names_may_be_long(rt: HostRuntime) {
    assert_listed(&rt, long());
}
