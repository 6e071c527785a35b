ghost use Rattle.std.specs.Prelude.{◌≡◌, map, OnOk};
ghost use Rattle.cal_context.specs.Snapshots.{entry_of};
ghost use Rattle.cal_context.specs.Tree.{path_at};

use cal_context::{Context, Immediate, NodeNumber};
use cal_value::{OutOfMemory, TryCopy};
use std::alloc::Global;

/// The entries of a node's path as immediates, in place of those that are there. A node that isn't
/// one of the context is answered as want of memory is.
pub fn fill_immediates(
    alloc: Global,
    context: &Context,
    node: NodeNumber,
    imms: &mut Vec<Immediate>,
) -> Result<(), OutOfMemory>
    ensures { OnOk result (map (entry_of context.now) imms.new.items
        ≡ path_at context.now node) }
{
    if node.0 as usize >= context.node_count() {
        return Err(OutOfMemory);
    }
    imms.clear();
    let mut node = node;
    while let Some(link) = context.link(node) {
        imms.push(Immediate {
            attribute: link.attribute,
            value: context.value_at(link.value).copy(alloc)?,
        })?;
        node = link.parent;
    }
    imms.reverse();
    Ok(())
}
