ghost use Rattle.std.specs.Prelude.{◌≡◌, ◌++◌, ◌<◌, false, length, map, replicate, reverse};
ghost use Rattle.std.specs.Prelude.{IfOk, OnOk};
ghost use Rattle.cal_engine.specs.Visiting.{IsClimb, IsVisit};

use cal_context::{AttributeNumber, Context, NodeNumber};
use cal_value::OutOfMemory;
use std::alloc::Global;

/// The nodes of a context that were met on ways up from others, so that each is met once.
#[derive(Drop)]
pub(crate) struct Visits {
    // by a node's number, whether it was met
    met: Vec<bool>,
    // the attributes of the nodes that were met first on the last way up, from the root downwards
    pub(crate) trail: Vec<AttributeNumber>,
}

impl Visits {
    /// No node was met.
    pub(crate) fn new(alloc: Global, context: &Context) -> Result<Visits, OutOfMemory>
        ensures { IfOk result (λ visits.
            visits.met.items ≡ replicate (length context.now.paths) false) }
    {
        Ok(Visits {
            met: vec![in alloc; false; context.node_count()]?,
            trail: Vec::new(alloc),
        })
    }

    /// Meets a node and those above it, up to one that was met before or to the root, which is
    /// answered.
    pub(crate) fn visit(
        &mut self,
        context: &Context,
        node: NodeNumber,
    ) -> Result<NodeNumber, OutOfMemory>
        requires node { node.0 < length context.now.paths }
        requires long { length self.old.met.items ≡ length context.now.paths }
        ensures { IfOk result (IsVisit context.now self.old node self.new) }
    {
        self.trail.clear();
        let top = climb(context, node, &mut self.met, &mut self.trail)?;
        self.trail.reverse();
        Ok(top)
    }
}

/// Meets nodes on the way up. Their attributes are added to a trail in the order in which they are
/// met.
fn climb(
    context: &Context,
    node: NodeNumber,
    met: &mut Vec<bool>,
    trail: &mut Vec<AttributeNumber>,
) -> Result<NodeNumber, OutOfMemory>
    requires node { node.0 < length context.now.paths }
    requires long { length met.old.items ≡ length context.now.paths }
    requires none { length trail.old.items ≡ 0 }
    ensures { IfOk result
        (IsClimb context.now met.old.items node met.new.items trail.new.items) }
{
    let mut at = node;
    while let Some(link) = context.link(at) {
        let place = at.0 as usize;
        if met[place] {
            return Ok(at);
        }
        met[place] = true;
        trail.push(link.attribute)?;
        at = link.parent;
    }
    Ok(at)
}
