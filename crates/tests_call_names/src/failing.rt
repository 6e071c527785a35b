//! Reads and room that fail.

use crate::calls::{status_of, streams_of};
use std::thread::Threads;

const TWO: &str = "thread\ndeclare a int 1\nthread\ndeclare a int 1\n";

/// The status of a call whose reads of these numbers fail, and with room for so many bytes; and how
/// many it wrote.
fn left<R: Threads + Sync + AllocGlobal>(
    rt: &R,
    failing: &[u64],
    room: u64,
) -> Option<(u8, usize)> {
    let mut streams = streams_of(rt.alloc(), TWO, failing, room).ok()?;
    let status = status_of(rt, &["names"], &mut streams);
    let written = streams.output.bytes().len();
    drop(streams);
    Some((status?, written))
}

#[test]
fn reads_that_fail_are_told(rt: HostRuntime) {
    assert_eq!(rt; left(&rt, &[1], 100), Some((5, 0)));
    assert_eq!(rt; left(&rt, &[2], 100), Some((5, 0)));
}

#[test]
fn room_that_is_missing_is_told(rt: HostRuntime) {
    assert_eq!(rt; left(&rt, &[], 18), Some((0, 18)));
    assert_eq!(rt; left(&rt, &[], 17), Some((6, 17)));
    assert_eq!(rt; left(&rt, &[], 0), Some((6, 0)));
}
