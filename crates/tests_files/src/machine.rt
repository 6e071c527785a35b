//! Files of the machine, which the test writes where it runs.

use crate::reading::{is_so, read_joined};
use cal_files::{FileOpener, FilesEnd};
use std::fs;
use std::test::Fail;

#[test]
fn files_of_the_machine_are_read(rt: HostRuntime) -> Result<(), Fail> {
    fs::write(&rt, "first.txt", "abc")?;
    fs::write(&rt, "empty.txt", "")?;
    let mut opener = FileOpener::new(&rt);
    let names = ["first.txt", "empty.txt", "first.txt"];
    assert!(rt;
        is_so(
            read_joined(rt.alloc(), &mut opener, &names, 6),
            Ok("abc||abc|")
        )
    );
    Ok(())
}

#[test]
fn a_missing_file_cannot_be_opened(rt: HostRuntime) {
    let mut opener = FileOpener::new(&rt);
    let result = read_joined(rt.alloc(), &mut opener, &["missing.txt"], 6);
    assert!(rt; is_so(result, Err(FilesEnd::OpenFault { file: 0 })));
}

#[test]
fn a_directory_cannot_be_read(rt: HostRuntime) {
    let mut opener = FileOpener::new(&rt);
    let result = read_joined(rt.alloc(), &mut opener, &["."], 6);
    assert!(rt; is_so(result, Err(FilesEnd::ReadFault { file: 0 })));
}
