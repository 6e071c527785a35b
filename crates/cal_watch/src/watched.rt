//! A query over the rows that a trigger of a program lets through.
ghost use Rattle.std.specs.Prelude.{IfOk, IfErr};
ghost use Rattle.cal_base.specs.Change.{change_of};
ghost use Rattle.cal_ql.specs.Valid.{IsValidQuery};
ghost use Rattle.cal_query.specs.Layout.{LaysOutWhere, StopsRows};
ghost use Rattle.cal_watch.specs.Named.{conditions_of};

use crate::condition_guard::ConditionGuard;
use crate::triggers::{MainTrigger, SlowTrigger};
use cal_base::Source;
use cal_ql::Query;
use cal_query::{RowsEnd, guarded_text};
use cal_seeds::Seeds;
use cal_trigger::Triggers;
use cal_value::Text;
use std::alloc::Global;

/// Which of a program's triggers is asked.
#[derive(Clone, Copy, Debug, PartialEq, Eq)]
pub enum TriggerName {
    Main,
    Slow,
}

/// What a query prints of those rows of the stream that an input has left, at most `limit` bytes,
/// which the trigger of this name lets through. It is asked about a row as it was read, before LET.
/// Time, memory and seeds are those of `guarded_text`; the trigger's function is called once for each node
/// of the condition's name, and for each immediate of that name in a row.
pub fn watched_text<S: Source>(
    alloc: Global,
    seeds: Seeds,
    input: &mut S,
    limit: u64,
    query: &Query,
    name: TriggerName,
    triggers: &Triggers,
) -> Result<Text, RowsEnd>
    requires { IsValidQuery query.now }

    // All that was left was read, and the answer over the rows of which the condition holds laid
    // out.
    ensures text { IfOk result (λ text. LaysOutWhere (conditions_of name) query.now limit
        (change_of S.left S.faults input.old input.new) text) }

    // Why not.
    ensures refused { IfErr result (λ end.
        StopsRows end limit (change_of S.left S.faults input.old input.new)) }
{
    match name {
        TriggerName::Main => {
            let guard = ConditionGuard::new(alloc, MainTrigger { triggers });
            guarded_text(alloc, seeds, input, limit, guard, query)
        }
        TriggerName::Slow => {
            let guard = ConditionGuard::new(alloc, SlowTrigger { triggers });
            guarded_text(alloc, seeds, input, limit, guard, query)
        }
    }
}
