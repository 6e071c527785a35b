ghost use Rattle.std.specs.Prelude.{◌≡◌, ◌==◌, ◌<◌, ◌++◌, ◌&&◌, length, option_to_list, OnOk};
ghost use Rattle.std.specs.Prelude.{◌≤◌, take};
ghost use Rattle.std.specs.List.{All};
ghost use Rattle.cal_context.specs.Snapshots.{IsBelowRoot};
ghost use Rattle.cal_write.specs.SnapshotNeeds.{NeedsImmediates, NeedsNodes};

use crate::node_writer::NodeWriter;
use cal_context::{Context, Immediate, NodeNumber, Snapshot};
use cal_value::OutOfMemory;

/// Writes what a record's nodes need, and puts their ids into `ids`.
#[inline(always)]
pub(crate) fn need_nodes(
    writer: &mut NodeWriter,
    context: &Context,
    nodes: &[NodeNumber],
    ids: &mut Vec<u32>,
) -> Result<(), OutOfMemory>
    requires { All (IsBelowRoot context.now) nodes.now }
    ensures { OnOk result (NeedsNodes context.now writer.old writer.new nodes.now ids.new.items) }
{
    ids.clear();
    for node in nodes {
        let id = writer.node_id(context, *node)?;
        push_some(ids, id)?;
    }
    Ok(())
}

/// Writes what a record's immediates need, and puts the ids of their attributes' nodes into `ids`,
/// in front of what may be left there.
#[inline(always)]
pub(crate) fn need_immediates(
    writer: &mut NodeWriter,
    context: &Context,
    imms: &[Immediate],
    ids: &mut Vec<u32>,
) -> Result<(), OutOfMemory>
    requires { All (λ i. i.attribute.0 < length context.now.attributes) imms.now }
    ensures needs { OnOk result (NeedsImmediates context.now writer.old writer.new imms.now
        (take (length imms.now) ids.new.items)) }
    ensures room { OnOk result (length imms.now ≤ length ids.new.items) }
{
    make_long(ids, imms.len())?;
    for place in 0..imms.len() {
        ids[place] = writer.need_attribute(context, imms[place].attribute)?;
    }
    Ok(())
}

/// Makes a list so long, if it isn't.
#[inline(always)]
fn make_long(list: &mut Vec<u32>, len: usize) -> Result<(), OutOfMemory>
    ensures { OnOk result (len ≤ length list.new.items) }
{
    if list.len() < len {
        list.resize(len, 0)?;
    }
    Ok(())
}

fn push_some(ids: &mut Vec<u32>, id: Option<u32>) -> Result<(), OutOfMemory>
    ensures { OnOk result (ids.new.items ≡ ids.old.items ++ option_to_list id) }
{
    if let Some(id) = id {
        ids.push(id)?;
    }
    Ok(())
}

/// Whether a snapshot is of neither a node nor an immediate.
pub(crate) fn has_no_entry(snapshot: &Snapshot) -> bool
    ensures { result ≡ ((length snapshot.now.nodes.items == 0)
        && (length snapshot.now.imms.items == 0)) }
{
    snapshot.nodes.is_empty() && snapshot.imms.is_empty()
}
