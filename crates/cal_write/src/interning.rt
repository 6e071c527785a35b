ghost use Rattle.std.specs.Prelude.{◌<◌, length, IfOk, OnOk};
ghost use Rattle.cal_context.specs.Tree.{Grows};
ghost use Rattle.cal_write.specs.Interning.{AddsImmediate, AddsImmediates, AddsPath};
ghost use Rattle.cal_write.specs.Interning.{AddsPaths, IsReached, IsStep, Means};

use cal_context::{Context, Immediate, NodeNumber, Snapshot};
use cal_value::{Entry, OutOfMemory, Rec, Seq, TryCopy};
use std::alloc::Global;

/// Puts a record into a context, and makes the snapshot mean it, but for paths without entries.
pub fn intern_record(
    alloc: Global,
    context: &mut Context,
    rec: &Rec,
    snapshot: &mut Snapshot,
) -> Result<(), OutOfMemory>
    ensures means { OnOk result (Means context.new snapshot.new rec.now) }
    ensures grows { Grows context.old context.new }
{
    snapshot.clear();
    intern_paths(context, rec.paths.as_slice(), &mut snapshot.nodes)?;
    intern_immediates(alloc, context, rec.imms.as_slice(), &mut snapshot.imms)?;
    Ok(())
}

fn intern_paths(
    context: &mut Context,
    paths: &[Seq<Entry>],
    nodes: &mut Vec<NodeNumber>,
) -> Result<(), OutOfMemory>
    ensures adds { OnOk result
        (AddsPaths context.old context.new paths.now nodes.old.items nodes.new.items) }
    ensures grows { Grows context.old context.new }
{
    for path in paths {
        intern_path(context, path.as_slice(), nodes)?;
    }
    Ok(())
}

fn intern_path(
    context: &mut Context,
    path: &[Entry],
    nodes: &mut Vec<NodeNumber>,
) -> Result<(), OutOfMemory>
    ensures adds { OnOk result
        (AddsPath context.old context.new path.now nodes.old.items nodes.new.items) }
    ensures grows { Grows context.old context.new }
{
    if path.is_empty() {
        return Ok(());
    }
    let node = reach(context, path)?;
    nodes.push(node)?;
    Ok(())
}

/// The node that a path leads to.
fn reach(context: &mut Context, path: &[Entry]) -> Result<NodeNumber, OutOfMemory>
    ensures reached { IfOk result (IsReached context.new path.now) }
    ensures grows { Grows context.old context.new }
{
    context.has_each_once();
    let mut node = NodeNumber::ROOT;
    for entry in path {
        node = step(context, node, entry)?;
    }
    Ok(node)
}

/// The node of an entry below a node.
fn step(context: &mut Context, parent: NodeNumber, entry: &Entry) -> Result<NodeNumber, OutOfMemory>
    requires { parent.0 < length context.old.paths }
    ensures step { IfOk result (IsStep context.old context.new parent entry.now) }
    ensures grows { Grows context.old context.new }
{
    let attribute = context.attribute(&entry.attr)?;
    let node = context.child(parent, attribute, &entry.value)?;
    Ok(node)
}

fn intern_immediates(
    alloc: Global,
    context: &mut Context,
    entries: &[Entry],
    imms: &mut Vec<Immediate>,
) -> Result<(), OutOfMemory>
    ensures adds { OnOk result
        (AddsImmediates context.old context.new entries.now imms.old.items imms.new.items) }
    ensures grows { Grows context.old context.new }
{
    for entry in entries {
        intern_immediate(alloc, context, entry, imms)?;
    }
    Ok(())
}

fn intern_immediate(
    alloc: Global,
    context: &mut Context,
    entry: &Entry,
    imms: &mut Vec<Immediate>,
) -> Result<(), OutOfMemory>
    ensures adds { OnOk result
        (AddsImmediate context.old context.new entry.now imms.old.items imms.new.items) }
    ensures grows { Grows context.old context.new }
{
    let attribute = context.attribute(&entry.attr)?;
    let value = entry.value.copy(alloc)?;
    imms.push(Immediate { attribute, value })?;
    Ok(())
}
