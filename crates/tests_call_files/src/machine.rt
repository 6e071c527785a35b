//! Files of the machine, which the test writes where it runs.

use crate::calls::{outcome_of, sinks_of, texts};
use cal_files::FileOpener;
use std::fs;
use std::fs::Files;
use std::test::Fail;
use std::thread::Threads;

/// The status of a call over files of the machine.
fn status_of<R: Threads + Sync + AllocGlobal + Files>(rt: &R, words: &[&str]) -> Option<u8> {
    let words = texts(rt.alloc(), words).ok()?;
    let mut sinks = sinks_of(rt.alloc(), 1000).ok()?;
    let mut opener = FileOpener::new(rt);
    let outcome = outcome_of(rt, words.as_slice(), &mut opener, &mut sinks);
    drop(opener);
    drop(sinks);
    drop(words);
    Some(outcome.status)
}

#[test]
fn files_of_the_machine_are_asked(rt: HostRuntime) -> Result<(), Fail> {
    fs::write(
        &rt,
        "good.cali",
        "__rec=node,id=12,attr=10,data=276,parent=3\n",
    )?;
    fs::write(&rt, "bad.cali", "__rec=ctx,ref=12\n")?;
    assert_eq!(rt;
        status_of(&rt, &["files", "--in=good.cali", "--in=good.cali"]),
        Some(0)
    );
    assert_eq!(rt;
        status_of(&rt, &["files", "--in=good.cali", "--in=bad.cali"]),
        Some(3)
    );
    assert_eq!(rt; status_of(&rt, &["files", "--in=."]), Some(5));
    assert_eq!(rt;
        status_of(&rt, &["files", "--in=bad.cali", "--in=no.cali"]),
        Some(9)
    );
    assert_eq!(rt; status_of(&rt, &["files", "--in="]), Some(9));
    Ok(())
}
