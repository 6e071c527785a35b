//! A thread hands parts over while another one collects them.
ghost use Rattle.std.specs.Prelude.{◌≡◌, ◌≤◌, [], Some, IfOk, OnOk, length, slice_get};
ghost use Rattle.cal_mail.specs.Ends.{AllLastCame, IsEndedOf, mailbox_of, mailbox_of_sender};
ghost use Rattle.cal_mail.specs.Ends.{number_of, senders_of, sent_by};
ghost use Rattle.cal_collect.specs.Collecting.{HasMerged};

use crate::ends::{collect, give};
use cal_collect::{Part, PartCollector, Shapes, open_parts};
use cal_mail::Ended;
use cal_table::TableShape;
use cal_value::{OutOfMemory, Seq};
use std::alloc::Global;
use std::hash::RandomState;
use std::io;
use std::marker::Brand;
use std::sync::Wait;
use std::thread::{Threads, join};

/// How many parts came, how many snapshots the table of channel 0 stands for, and how many rows it
/// has.
#[derive(Clone, Copy, Debug, PartialEq)]
struct Got {
    parts: u64,
    snapshots: u64,
    rows: usize,
}

// A thread hands over a part for each node through a mailbox with so much room, while another one
// collects them.
fn at_once<R: Threads + Wait + Sync, S: Shapes + Send + Sync>(
    rt: &R,
    alloc: Global,
    shapes: &[TableShape],
    nodes: &[u32],
    room: u32,
) -> Result<Got, OutOfMemory>
    requires shapes { S.shapes ≡ shapes.now }
    requires one { length shapes.now ≡ 1 }
    requires few { length nodes.now ≤ 64 }
    requires room { (1 ≤ room) × (room ≤ 1024) }
{
    let (mut senders, collector) = open_parts::<R, S>(rt, alloc, 1, shapes, room)?;
    let Some(sender) = senders.pop() else {
        unreachable!()
    };
    let shape = &shapes[0];
    let ((one, given), (collector, collected)) = join(
        rt,
        || -> (Ended<Part>, bool)
            requires shape { slice_get S.shapes 0 ≡ Some shape.now }
            requires few { length nodes.now ≤ 64 }
            requires fresh { sent_by sender.sender ≡ [] }
            ensures { IsEndedOf (mailbox_of_sender sender.entry.sender)
                (number_of sender.entry.sender) result.0 }
        { give(alloc, sender, shape, nodes) },
        || -> (PartCollector<'_, R, S>, Result<(), OutOfMemory>)
            requires { HasMerged S.shapes collector }
            ensures { OnOk result.1 (HasMerged S.shapes result.0)
                × AllLastCame result.0.collector
                × (mailbox_of result.0.collector ≡ mailbox_of collector.entry.collector)
                × (senders_of result.0.collector ≡ senders_of collector.entry.collector) }
        { collect(collector) },
    );
    collected?;
    if !given {
        return Err(OutOfMemory);
    }
    let mut ended = Vec::new(alloc);
    ended.push(one)?;
    let parts = collector.received();
    let tables = collector.finish(ended);
    let Some(table) = tables.first() else {
        unreachable!()
    };
    Ok(Got {
        parts,
        snapshots: table.snapshots(),
        rows: table.rows().keys.len(),
    })
}

// The same for tables without keys and values, whose rows are by nodes alone.
fn by_nodes<R: Threads + Wait + Sync>(
    rt: &R,
    alloc: Global,
    hashers: RandomState,
    nodes: &[u32],
) -> Result<Got, OutOfMemory>
    requires few { length nodes.now ≤ 64 }
{
    let none = Seq::new(alloc);
    let shape = TableShape::of(alloc, hashers, &Seq::new(alloc), &none, &Seq::new(alloc))?;
    let mut shapes = Vec::new(alloc);
    shapes.push(shape)?;
    at_once::<R, Brand>(rt, alloc, shapes.as_slice(), nodes, 1)
}

#[test]
fn five_parts_through_room_for_one(rt: HostRuntime) -> io::Result<()> {
    let hashers = RandomState::new(&rt)?;
    let got = by_nodes(&rt, rt.alloc(), hashers, &[5, 8, 5, 5, 8]);
    let wanted = Got {
        parts: 5,
        snapshots: 5,
        rows: 2,
    };
    assert_eq!(rt; got, Ok(wanted));
    Ok(())
}
