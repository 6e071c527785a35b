//! Reads and room that fail.

use crate::calls::{status_of, streams_of};
use crate::streams::DURATIONS;
use std::alloc::Global;

/// The status of a call whose reads of these numbers fail, and with room for so many bytes; and how
/// many it wrote.
fn left(alloc: Global, failing: &[u64], room: u64) -> Option<(u8, usize)> {
    let mut streams = streams_of(alloc, DURATIONS, failing, room).ok()?;
    let status = status_of(alloc, &["watch", "--trigger=slow"], &mut streams);
    let written = streams.output.bytes().len();
    drop(streams);
    Some((status?, written))
}

#[test]
fn reads_that_fail_are_told(rt: HostRuntime) {
    assert_eq!(rt; left(rt.alloc(), &[1], 100), Some((5, 0)));
    assert_eq!(rt; left(rt.alloc(), &[2], 100), Some((5, 0)));
}

#[test]
fn room_that_is_missing_is_told(rt: HostRuntime) {
    assert_eq!(rt; left(rt.alloc(), &[], 22), Some((0, 22)));
    assert_eq!(rt; left(rt.alloc(), &[], 21), Some((6, 21)));
    assert_eq!(rt; left(rt.alloc(), &[], 0), Some((6, 0)));
}
