ghost use Rattle.std.specs.Prelude.{◌≡◌, ◌<◌, length, OnOk};
ghost use Rattle.cal_engine.specs.Totals.{IsAddedAbove};

use crate::groups::merge_into;
use cal_context::{Context, NodeNumber};
use cal_parts::Part;
use cal_value::{OutOfMemory, Seq};
use std::alloc::Global;

/// Adds parts at a node and at each node above it, in time in the length of its path.
pub(crate) fn add_upwards(
    alloc: Global,
    context: &Context,
    node: NodeNumber,
    parts: &[Part],
    totals: &mut Vec<Seq<Part>>,
) -> Result<(), OutOfMemory>
    requires node { node.0 < length context.now.paths }
    requires long { length totals.old.items ≡ length context.now.paths }
    ensures long { length totals.new.items ≡ length context.now.paths }
    ensures added { OnOk result
        (IsAddedAbove context.now node parts.now totals.old.items totals.new.items) }
{
    context.has_each_once();
    let mut at = node;
    loop {
        let place = at.0 as usize;
        merge_into(alloc, &mut totals[place], parts)?;
        match context.link(at) {
            Some(link) => at = link.parent,
            None => return Ok(()),
        }
    }
}
