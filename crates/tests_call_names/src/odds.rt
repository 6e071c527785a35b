//! Two threads that declare one name in two ways, of which either may be first.

use crate::calls::{Streams, outcome_of, streams_of};
use cal_call_names::{NameReply, NamesOutcome};
use cal_value::Kind;
use std::thread::Threads;

const ODDS: &str = "thread\ndeclare n int 1\nthread\ndeclare n uint 21\n";

const INT: NameReply = NameReply::Different {
    kind: Kind::Int,
    props: 1,
};

const UINT: NameReply = NameReply::Different {
    kind: Kind::Uint,
    props: 21,
};

/// The replies to the one declaration of each of two threads.
fn replies_of(outcome: &NamesOutcome) -> Option<(NameReply, NameReply)> {
    let [first, second] = outcome.replies.as_slice() else {
        return None;
    };
    let [first] = first.as_slice() else {
        return None;
    };
    let [second] = second.as_slice() else {
        return None;
    };
    Some((*first, *second))
}

/// Whether a call ended with one declaration refused, and told so.
fn is_refused(streams: &Streams, outcome: &NamesOutcome) -> bool {
    outcome.status == 1 && streams.errors.bytes() == "caliper: refused lines: 1\n".as_bytes()
}

/// Whether what is listed is the declaration that wasn't refused.
fn is_listed(streams: &Streams, replies: (NameReply, NameReply)) -> bool {
    let listed = streams.output.bytes();
    if replies == (NameReply::Same, INT) {
        listed == "attribute n int 1\n".as_bytes()
    } else if replies == (UINT, NameReply::Same) {
        listed == "attribute n uint 21\n".as_bytes()
    } else {
        false
    }
}

fn is_settled<R: Threads + Sync + AllocGlobal>(rt: &R, streams: &mut Streams) -> Option<bool> {
    let outcome = outcome_of(rt, &["names"], streams)?;
    let settled = match replies_of(&outcome) {
        Some(replies) => is_refused(streams, &outcome) && is_listed(streams, replies),
        None => false,
    };
    drop(outcome);
    Some(settled)
}

fn are_settled<R: Threads + Sync + AllocGlobal>(rt: &R) -> Option<bool> {
    let mut streams = streams_of(rt.alloc(), ODDS, &[], 100).ok()?;
    let settled = is_settled(rt, &mut streams);
    drop(streams);
    settled
}

#[test]
fn one_of_two_ways_stands(rt: HostRuntime) {
    for _ in 0..10 {
        assert_eq!(rt; are_settled(&rt), Some(true));
    }
}
