//! Mailboxes with one sender, with two, and with none.
ghost use Rattle.std.specs.Prelude.{◌≡◌, ◌≤◌};
ghost use Rattle.cal_mail.specs.Ends.{AllLastCame, IsEndedOf, mailbox_of};
ghost use Rattle.cal_mail.specs.Ends.{mailbox_of_sender, number_of, senders_of};

use crate::mail_ends::{Got, collect, give};
use cal_mail::{AnyPart, Collector, Ended, open_mail};
use cal_value::OutOfMemory;
use std::alloc::Global;
use std::sync::Wait;
use std::thread::{Threads, join};

// A thread gives so many parts through a channel with so much room, while another one collects.
fn at_once<R: Threads + Wait + Sync>(
    rt: &R,
    alloc: Global,
    room: u32,
    count: u32,
) -> Result<Got, OutOfMemory>
    requires room { (1 ≤ room) × (room ≤ 1024) }
{
    let (mut senders, collector) = open_mail::<R, u32, AnyPart>(rt, alloc, 1, room)?;
    let Some(sender) = senders.pop() else {
        unreachable!()
    };
    let (one, (collector, got)) = join(
        rt,
        || -> Ended<u32>
            ensures { IsEndedOf (mailbox_of_sender sender.entry) (number_of sender.entry) result }
        { give(sender, count) },
        || -> (Collector<'_, R, u32, AnyPart>, Got)
            ensures { AllLastCame result.0 × (mailbox_of result.0 ≡ mailbox_of collector.entry)
                × (senders_of result.0 ≡ senders_of collector.entry) }
        { collect(rt, collector) },
    );
    let mut ended = Vec::new(alloc);
    ended.push(one)?;
    collector.finish(ended);
    Ok(got)
}

// Two senders give so many parts each, and then the same thread collects.
fn in_turn<Q: Wait>(
    wait: &Q,
    alloc: Global,
    room: u32,
    counts: [u32; 2],
) -> Result<Got, OutOfMemory>
    requires room { (1 ≤ room) × (room ≤ 1024) }
{
    let (mut senders, collector) = open_mail::<Q, u32, AnyPart>(wait, alloc, 2, room)?;
    let Some(second) = senders.pop() else {
        unreachable!()
    };
    let Some(first) = senders.pop() else {
        unreachable!()
    };
    let mut ended = Vec::with_capacity(alloc, 2)?;
    ended.push(give(first, counts[0]))?;
    ended.push(give(second, counts[1]))?;
    let (collector, got) = collect(wait, collector);
    collector.finish(ended);
    Ok(got)
}

// No sender: there is nothing to wait for.
fn by_none<Q: Wait>(wait: &Q, alloc: Global) -> Result<Got, OutOfMemory> {
    let (_, collector) = open_mail::<Q, u32, AnyPart>(wait, alloc, 0, 1)?;
    let (collector, got) = collect(wait, collector);
    collector.finish(Vec::new(alloc));
    Ok(got)
}

fn got(first: u32, second: u32) -> Result<Got, OutOfMemory> {
    Ok(Got {
        counts: [first, second],
        in_order: true,
    })
}

#[test]
fn five_parts_through_room_for_one(rt: HostRuntime) {
    assert_eq!(rt; at_once(&rt, rt.alloc(), 1, 5), got(5, 0));
}

#[test]
fn many_parts_through_little_room(rt: HostRuntime) {
    assert_eq!(rt; at_once(&rt, rt.alloc(), 3, 1000), got(1000, 0));
}

#[test]
fn a_sender_that_only_ends(rt: HostRuntime) {
    assert_eq!(rt; at_once(&rt, rt.alloc(), 1, 0), got(0, 0));
}

#[test]
fn two_senders_in_turn(rt: HostRuntime) {
    assert_eq!(rt; in_turn(&rt, rt.alloc(), 1024, [500, 7]), got(500, 7));
    assert_eq!(rt; in_turn(&rt, rt.alloc(), 1024, [0, 1]), got(0, 1));
}

#[test]
fn no_sender(rt: HostRuntime) {
    assert_eq!(rt; by_none(&rt, rt.alloc()), got(0, 0));
}
