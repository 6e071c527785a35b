//! The guard that lets rows through by one condition, which whoever decides it is asked about entry
//! by entry.
ghost use Rattle.cal_context.specs.Tree.{Tree};
ghost use Rattle.cal_watch.specs.Knowing.{Knows};

use crate::asker::Asker;
use crate::asking::{holds_on_immediates, holds_on_nodes};
use crate::decider::Decider;
use crate::knowing::{know_attributes, know_nodes};
use cal_context::{Context, Snapshot};
use cal_query::Guard;
use cal_value::OutOfMemory;
use std::alloc::Global;

/// A guard by one condition. A condition without `not` holds of a record exactly where it speaks of
/// one of its entries, so what it says of a node is found out once, and kept beside its number.
#[derive(Drop)]
pub(crate) struct ConditionGuard<D: Drop> {
    asker: Asker<D>,
    // of each attribute that is known: whether it has the condition's name
    named: Vec<bool>,
    // of each node that is known: whether the condition speaks of some entry of its path
    holding: Vec<bool>,
}

impl<D: Decider + Drop> ConditionGuard<D> {
    /// A guard that knows nothing yet. It takes no memory.
    pub fn new(alloc: Global, decider: D) -> ConditionGuard<D>
        ensures { (t : Tree) → Knows D.condition result t }
    {
        ConditionGuard {
            asker: Asker::new(alloc, decider),
            named: Vec::new(alloc),
            holding: Vec::new(alloc),
        }
    }
}

impl<D: Decider + Drop> Guard for ConditionGuard<D> {
    ghost use Rattle.std.specs.Prelude.{[], ◌∷◌};
    ghost use Rattle.cal_watch.specs.Knowing.{Knows, Knows-Grows};

    ghost conditions = { D.condition ∷ [] };

    ghost answers_in = { Knows D.condition };

    ghost keeps_on = { Knows-Grows D.condition };

    fn lets_through(
        &mut self,
        context: &Context,
        snapshot: &Snapshot,
    ) -> Result<bool, OutOfMemory> {
        know_attributes(&self.asker.decider, &mut self.named, context)?;
        know_nodes(
            &mut self.asker,
            self.named.as_slice(),
            &mut self.holding,
            context,
        )?;
        if holds_on_nodes(self.holding.as_slice(), snapshot.nodes.as_slice()) {
            return Ok(true);
        }
        let beside = holds_on_immediates(
            &mut self.asker,
            self.named.as_slice(),
            context,
            snapshot.imms.as_slice(),
        )?;
        Ok(beside)
    }
}
