//! A query over those rows that one trigger lets through.
ghost use Rattle.std.specs.Prelude.{◌≡◌, [], ◌++◌, List, IfOk, OnOk};
ghost use Rattle.cal_engine.specs.Answers.{answer_of};
ghost use Rattle.cal_engine.specs.Folding.{StandsFor};
ghost use Rattle.cal_ql.specs.Valid.{IsValidQuery};
ghost use Rattle.cal_ql.specs.declared.query.Query.{Query as AQuery};
ghost use Rattle.cal_trigger.specs.Watching.{let_through, with_conditions};

use cal_ql::Query;
use cal_rowset::Rowset;
use cal_trigger::{Trigger, Watch, conditions_in_front_law};
use cal_value::{OutOfMemory, Rec, TryCopy};
use std::alloc::Global;

/// The answer of a query over those rows that a trigger lets through. Without LET it is that over
/// all rows, with the trigger's conditions in front of those of WHERE.
pub fn watched(
    alloc: Global,
    query: &Query,
    trigger: &Trigger,
    rows: &[Rec],
) -> Result<Rowset, OutOfMemory>
    requires { IsValidQuery query.now }
    ensures through { IfOk result (λ answer.
        answer ≡ answer_of query.now (let_through trigger.now.conds rows.now)) }
    ensures in_front { IfOk result (λ answer. query.now.lets ≡ []
        → answer ≡ answer_of (with_conditions trigger.now.conds query.now) rows.now) }
{
    conditions_in_front_law();
    let mut watch = Watch::new(alloc, query)?;
    add_all(alloc, &mut watch, trigger, rows)?;
    watch.finish()
}

/// Adds those rows that a trigger lets through.
fn add_all(
    alloc: Global,
    watch: &mut Watch,
    trigger: &Trigger,
    rows: &[Rec],
) -> Result<(), OutOfMemory>
    ensures { OnOk result ((q : AQuery) → StandsFor q [] watch.old
        → StandsFor q (let_through trigger.now.conds rows.now) watch.new) }
{
    for rec in rows {
        watch.add(trigger, rec.copy(alloc)?)?;
    }
    Ok(())
}
