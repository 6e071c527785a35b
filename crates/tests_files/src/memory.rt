//! Files in memory.
ghost use Rattle.std.specs.Prelude.{◌≡◌, IfOk};

use crate::reading::{is_so, read_joined};
use cal_files::{FilesEnd, MemOpener, NamedBytes};
use cal_value::{Seq, Text};
use std::alloc::Global;

/// Files by their names, of which the last has the name of another.
const FILES: [(&str, &str); 4] = [
    ("one", "abc"),
    ("none", ""),
    ("two", "defg"),
    ("one", "another"),
];

fn files() -> &'static [(&'static str, &'static str)] {
    &FILES
}

fn held(alloc: Global) -> Result<Vec<NamedBytes>, FilesEnd> {
    let mut held = Vec::new(alloc);
    for (name, bytes) in files() {
        held.push(NamedBytes {
            name: Text::from_string(String::from_str(alloc, name)?),
            bytes: Seq::from_vec(bytes.as_bytes().to_vec(alloc)?),
        })?;
    }
    Ok(held)
}

/// An opener of these files, of which an opening and a read are to fail.
fn opener(alloc: Global, opening: u64, read: u64) -> Result<MemOpener, FilesEnd>
    ensures { IfOk result (λ opener. opener.openings ≡ 0) }
{
    let files = Seq::from_vec(held(alloc)?);
    let open_failing = Seq::from_vec([opening].to_vec(alloc)?);
    let read_failing = Seq::from_vec([read].to_vec(alloc)?);
    Ok(MemOpener::new(files, open_failing, read_failing))
}

/// Names, the limit, the opening and the read that are to fail, and what comes of it.
type Row = (
    &'static [&'static str],
    u64,
    u64,
    u64,
    Result<&'static str, FilesEnd>,
);

/// The reads of these are two of the first file, one of the second and two of the third: the last
/// of each meets the end.
const ALL: &[&str] = &["one", "none", "two"];

/// There is no opening and no read 99.
static ROWS: [Row; 17] = [
    (&[], 0, 99, 99, Ok("")),
    (&["none"], 0, 99, 99, Ok("|")),
    (&["one"], 3, 99, 99, Ok("abc|")),
    (&["one", "one"], 6, 99, 99, Ok("abc|abc|")),
    (&["two", "none", "one"], 100, 99, 99, Ok("defg||abc|")),
    (ALL, 7, 99, 99, Ok("abc||defg|")),
    (
        &["one", "lost", "two"],
        7,
        99,
        99,
        Err(FilesEnd::OpenFault { file: 1 }),
    ),
    (ALL, 7, 1, 99, Err(FilesEnd::OpenFault { file: 0 })),
    (ALL, 7, 3, 99, Err(FilesEnd::OpenFault { file: 2 })),
    (ALL, 7, 99, 1, Err(FilesEnd::ReadFault { file: 0 })),
    (ALL, 7, 99, 3, Err(FilesEnd::ReadFault { file: 1 })),
    (ALL, 7, 99, 5, Err(FilesEnd::ReadFault { file: 2 })),
    (ALL, 3, 99, 2, Err(FilesEnd::ReadFault { file: 0 })),
    (ALL, 2, 99, 99, Err(FilesEnd::TooLong { file: 0 })),
    (ALL, 3, 99, 99, Err(FilesEnd::TooLong { file: 2 })),
    (ALL, 6, 99, 5, Err(FilesEnd::TooLong { file: 2 })),
    (ALL, 6, 3, 99, Err(FilesEnd::OpenFault { file: 2 })),
];

fn rows() -> &'static [Row] {
    &ROWS
}

fn read_row(alloc: Global, row: &Row) -> Result<Vec<u8>, FilesEnd> {
    let (names, limit, opening, read, _) = *row;
    let mut opener = opener(alloc, opening, read)?;
    read_joined(alloc, &mut opener, names, limit)
}

fn wrong_row(alloc: Global) -> Option<usize> {
    for (place, row) in rows().iter().enumerate() {
        if !is_so(read_row(alloc, row), row.4) {
            return Some(place);
        }
    }
    None
}

#[test]
fn files_are_read_in_order_up_to_the_first_reason(rt: HostRuntime) {
    assert_eq!(rt; wrong_row(rt.alloc()), None, "the first wrong row");
}
