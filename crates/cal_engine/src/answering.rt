ghost use Rattle.std.specs.Prelude.{◌≡◌, [], IfOk, OnOk};
ghost use Rattle.cal_ql.specs.Valid.{IsValidQuery};
ghost use Rattle.cal_ql.specs.declared.query.Query.{Query as AQuery};
ghost use Rattle.cal_engine.specs.Answers.{answer_of};
ghost use Rattle.cal_engine.specs.Folding.{StandsFor};

use crate::Fold;
use cal_ql::Query;
use cal_rowset::Rowset;
use cal_value::{OutOfMemory, Rec, Records, TryCopy};
use std::alloc::Global;

/// The answer of a query on the rows of records; their globals are left aside.
pub fn answer(alloc: Global, query: &Query, records: &Records) -> Result<Rowset, OutOfMemory>
    requires { IsValidQuery query.now }
    ensures { IfOk result (λ answer. answer ≡ answer_of query.now records.now.rows) }
{
    let mut fold = Fold::new(alloc, query)?;
    add_all(alloc, &mut fold, records.rows.as_slice())?;
    fold.finish()
}

/// Adds records at the end of a fold.
fn add_all(alloc: Global, fold: &mut Fold, records: &[Rec]) -> Result<(), OutOfMemory>
    ensures { OnOk result ((q : AQuery) → StandsFor q [] fold.old
        → StandsFor q records.now fold.new) }
{
    for rec in records {
        fold.add(rec.copy(alloc)?)?;
    }
    Ok(())
}
