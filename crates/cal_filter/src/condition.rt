//! A condition of WHERE, over snapshots by number.
ghost use Rattle.std.specs.Prelude.{◌≡◌, IfOk, OnOk};
ghost use Rattle.cal_context.specs.Snapshots.{IsIn, meaning};
ghost use Rattle.cal_context.specs.Tree.{Tree};
ghost use Rattle.cal_filter.specs.Conditions.{cond_holds};
ghost use Rattle.cal_filter.specs.Ready.{IsCondition, IsReadyCondition};
ghost use Rattle.cal_filter.specs.Replaced.{ConditionCatchesUp};
ghost use Rattle.cal_ql.specs.declared.query.Cond.{Cond as CondOf};

use crate::seeker::Seeker;
use crate::wanted::Wanted;
use cal_context::{Context, Snapshot};
use cal_ql::Cond;
use cal_value::{OutOfMemory, TryCopy};
use std::alloc::Global;

/// A condition of WHERE, over snapshots by number.
#[derive(Drop)]
pub(crate) struct Condition {
    negated: bool,
    seeker: Seeker,
}

impl Condition {
    /// A condition.
    pub(crate) fn new(alloc: Global, cond: &Cond) -> Result<Condition, OutOfMemory>
        ensures { IfOk result (λ condition. (t : Tree) → IsCondition t cond.now condition) }
    {
        let name = cond.name.copy(alloc)?;
        let wanted = Wanted::of_test(alloc, &cond.test)?;
        Ok(Condition {
            negated: cond.not,
            seeker: Seeker::new(alloc, name, wanted),
        })
    }

    /// Gets to know what is new in a context.
    pub(crate) fn catch_up(&mut self, context: &Context) -> Result<(), OutOfMemory>
        ensures { OnOk result (ConditionCatchesUp context.now self.old self.new) }
    {
        self.seeker.catch_up(context)
    }

    /// Whether it holds of a record.
    pub(crate) fn holds(&self, context: &Context, snapshot: &Snapshot) -> bool
        requires { IsIn context.now snapshot.now }
        ensures { (c : CondOf) → IsReadyCondition context.now c self.now
            → result ≡ cond_holds c (meaning context.now snapshot.now) }
    {
        self.seeker.finds(context, snapshot) != self.negated
    }
}
