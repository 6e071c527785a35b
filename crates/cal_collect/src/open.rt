//! Opening a mailbox for parts.
ghost use Rattle.std.specs.Prelude.{◌≡◌, ◌≤◌, [], IfOk, length, map};
ghost use Rattle.cal_mail.specs.Ends.{AreNewSenders, mailbox_of, received_by, senders_of};
ghost use Rattle.cal_table.specs.Tables.{empty_table};
ghost use Rattle.cal_collect.specs.Collecting.{HasMerged, senders_in};

use crate::{Part, PartCollector, PartLaw, PartSender, Shapes};
use cal_mail::{Sender, open_mail};
use cal_table::{Table, TableShape};
use cal_value::OutOfMemory;
use std::alloc::Global;
use std::sync::Wait;

/// So many senders, in the order of their numbers, and the collector, which has an empty table for
/// each channel's shape. The mailbox has room for so many parts. All wait by the handle. It takes
/// memory, which handing over doesn't.
pub fn open_parts<'a, Q: Wait, S: Shapes>(
    wait: &'a Q,
    alloc: Global,
    senders: u32,
    shapes: &[TableShape],
    room: u32,
) -> Result<(Vec<PartSender<'a, Q, S>>, PartCollector<'a, Q, S>), OutOfMemory>
    requires few { senders ≤ 64 }
    requires room { (1 ≤ room) × (room ≤ 1024) }
    requires shapes { S.shapes ≡ shapes.now }
    ensures senders { IfOk result (λ r. (length r.0.items ≡ senders)
        × AreNewSenders (mailbox_of r.1.collector) (senders_in r.0.items)) }
    ensures collector { IfOk result (λ r. (senders_of r.1.collector ≡ senders)
        × (received_by r.1.collector ≡ [])) }
    ensures merged { IfOk result (λ r. HasMerged S.shapes r.1) }
{
    let tables = empty_tables(alloc, shapes)?;
    let (all, collector) = open_mail::<Q, Part, PartLaw<S>>(wait, alloc, senders, room)?;
    let all = part_senders(alloc, all)?;
    let collector = PartCollector {
        wait,
        collector,
        tables,
        count: 0,
    };
    Ok((all, collector))
}

// An empty table of each shape.
fn empty_tables(alloc: Global, shapes: &[TableShape]) -> Result<Vec<Table>, OutOfMemory>
    ensures { IfOk result (λ tables. tables.items ≡ map empty_table shapes.now) }
{
    let mut tables = Vec::with_capacity(alloc, shapes.len())?;
    for shape in shapes {
        tables.push(Table::new(alloc, shape)?)?;
    }
    Ok(tables)
}

// The senders, which hand parts over from now on.
fn part_senders<'a, Q, S: Shapes>(
    alloc: Global,
    senders: Vec<Sender<'a, Q, Part, PartLaw<S>>>,
) -> Result<Vec<PartSender<'a, Q, S>>, OutOfMemory>
    ensures { IfOk result (λ all. senders_in all.items ≡ senders.entry.items) }
{
    let mut all = Vec::with_capacity(alloc, senders.len())?;
    for sender in senders {
        all.push(PartSender { sender })?;
    }
    Ok(all)
}
