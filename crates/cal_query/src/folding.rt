ghost use Rattle.std.specs.Prelude.{◌≡◌, [], IfOk};
ghost use Rattle.cal_engine.specs.Standing.{HasFolded};
ghost use Rattle.cal_ql.specs.Valid.{IsValidQuery};

use crate::seeing::Seen;
use cal_context::Context;
use cal_engine::SnapshotFold;
use cal_ql::Query;
use cal_seeds::Seeds;
use cal_value::OutOfMemory;
use std::alloc::Global;

/// A query's fold of no row, and the context in which its rows will come, which hashes by the seeds.
pub fn new_fold(
    alloc: Global,
    seeds: Seeds,
    query: &Query,
) -> Result<Seen<SnapshotFold>, OutOfMemory>
    requires { IsValidQuery query.now }
    ensures query { IfOk result (λ none. none.taker.query ≡ query.now) }
    ensures none { IfOk result (λ none. HasFolded none.taker none.context []) }
{
    let mut context = Context::seeded(alloc, seeds);
    let Ok(taker) = SnapshotFold::new(alloc, query, &mut context) else {
        drop(context);
        return Err(OutOfMemory);
    };
    Ok(Seen { context, taker })
}
