use crate::KeyNodes;
use cal_snap::NumberedEntry;
use cal_value::{Exact, OutOfMemory, Seq, TryCopy};
use std::alloc::Global;

/// By what snapshots are grouped: their nodes, and those of their entries whose attributes are
/// keys.
#[derive(Debug, Drop, PartialEq, Eq, Hash)]
pub struct TableKey {
    pub refs: KeyNodes,
    pub imms: Seq<NumberedEntry>,
}

impl Exact for TableKey {
    ghost use Rattle.std.proofs.Common.{rules};
    ghost use Rattle.std.proofs.lemmas.Grind.{common_steps};
    ghost use Rattle.cal_value.specs.ExactOrder.{lists_tell, exact_tells};
    ghost use Rattle.cal_value.specs.OrderLaws.{value_exact};

    ghost tells = { Prim.search (rules, common_steps, lists_tell, exact_tells value_exact) };
}

impl TryCopy for TableKey {
    fn copy(&self, alloc: Global) -> Result<TableKey, OutOfMemory> {
        Ok(TableKey {
            refs: self.refs.copy(alloc)?,
            imms: self.imms.copy(alloc)?,
        })
    }
}
