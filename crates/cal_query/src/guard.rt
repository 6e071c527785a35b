//! Whoever says which rows a query is to see.
ghost use Rattle.std.specs.Prelude.{◌≡◌, IfOk, OnOk};
ghost use Rattle.cal_context.specs.Snapshots.{IsIn, meaning};
ghost use Rattle.cal_context.specs.Tree.{Grows};
ghost use Rattle.cal_filter.specs.Conditions.{where_holds};

use cal_context::{Context, Snapshot};
use cal_value::OutOfMemory;

/// Whoever lets those rows through of which conditions hold, asked about each as it was read.
pub trait Guard {
    ghost use Rattle.std.specs.Prelude.{List};
    ghost use Rattle.cal_context.specs.Tree.{Tree};
    ghost use Rattle.cal_ql.specs.declared.query.Cond.{Cond};

    // the conditions, those of all guards of its type
    ghost conditions: { List Cond };

    // whether it answers by them about the rows of a context as it stands
    ghost answers_in: { Self → Tree → Type 0 };

    /// Whether the conditions hold of the row that a snapshot means in a context. After an `Err`
    /// nothing is promised of the guard.
    fn lets_through(&mut self, context: &Context, snapshot: &Snapshot) -> Result<bool, OutOfMemory>
        requires { IsIn context.now snapshot.now }
        ensures through { IfOk result (λ through. answers_in self.old context.now
            → through ≡ where_holds conditions (meaning context.now snapshot.now)) }
        ensures stays { OnOk result (answers_in self.old context.now
            → answers_in self.new context.now) };

    // it does so still while the context grows
    ghost keeps_on: { (guard : Self) (old new : Tree)
        → answers_in guard old → Grows old new → answers_in guard new };
}
