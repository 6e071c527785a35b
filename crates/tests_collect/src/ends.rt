//! What the threads of the tests do.
ghost use Rattle.std.specs.Prelude.{◌≡◌, ◌≤◌, [], Some, IfOk, OnOk, length, slice_get};
ghost use Rattle.cal_mail.specs.Ends.{AllLastCame, IsEndedOf, mailbox_of, mailbox_of_sender};
ghost use Rattle.cal_mail.specs.Ends.{number_of, senders_of, sent_by};
ghost use Rattle.cal_collect.specs.Collecting.{HasMerged};

use cal_collect::{Part, PartCollector, PartSender, Shapes};
use cal_mail::Ended;
use cal_snap::NumberedSnap;
use cal_table::{Table, TableShape};
use cal_value::OutOfMemory;
use cal_words::NodeId;
use std::alloc::Global;
use std::sync::Wait;

// A table with one snapshot, at a node.
fn table_at(alloc: Global, shape: &TableShape, node: u32) -> Result<Table, OutOfMemory>
    ensures shape { IfOk result (λ table. table.shape ≡ shape.now) }
    ensures one { IfOk result (λ table. table.snapshots ≡ 1) }
{
    let mut snap = NumberedSnap::new(alloc);
    snap.refs.push(NodeId(node))?;
    let mut table = Table::new(alloc, shape)?;
    table.add_numbered(&snap)?;
    Ok(table)
}

/// Hands over, for channel 0, a part with one snapshot at each of the nodes, and the last message.
/// False: memory ran out.
pub fn give<Q: Wait, S: Shapes>(
    alloc: Global,
    mut sender: PartSender<'_, Q, S>,
    shape: &TableShape,
    nodes: &[u32],
) -> (Ended<Part>, bool)
    requires shape { slice_get S.shapes 0 ≡ Some shape.now }
    requires few { length nodes.now ≤ 64 }
    requires fresh { sent_by sender.sender ≡ [] }
    ensures ended { IsEndedOf (mailbox_of_sender sender.entry.sender)
        (number_of sender.entry.sender) result.0 }
{
    for node in nodes {
        let Ok(table) = table_at(alloc, shape, *node) else {
            return (sender.end(), false);
        };
        sender.hand(0, table);
    }
    (sender.end(), true)
}

/// Collects until the senders have ended.
pub fn collect<'a, Q: Wait, S: Shapes>(
    mut collector: PartCollector<'a, Q, S>,
) -> (PartCollector<'a, Q, S>, Result<(), OutOfMemory>)
    requires merged { HasMerged S.shapes collector }
    ensures merged { OnOk result.1 (HasMerged S.shapes result.0) }
    ensures came { AllLastCame result.0.collector }
    ensures stays { (mailbox_of result.0.collector ≡ mailbox_of collector.entry.collector)
        × (senders_of result.0.collector ≡ senders_of collector.entry.collector) }
{
    let collected = collector.collect();
    (collector, collected)
}
