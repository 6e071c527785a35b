ghost use Rattle.std.specs.Prelude.{◌≡◌, ◌==◌, ◌&&◌, length, IfOk};
ghost use Rattle.cal_filter.specs.Kept.{kept};
ghost use Rattle.cal_ql.specs.Valid.{IsValidQuery};

use crate::small::has_small_numbers;
use cal_filter::apply;
use cal_ql::Query;
use cal_value::{OutOfMemory, Rec};
use std::alloc::Global;

/// What LET and WHERE make of a record; without them it is the record itself.
pub(crate) fn made(alloc: Global, query: &Query, rec: Rec) -> Result<Option<Rec>, OutOfMemory>
    requires { IsValidQuery query.now }
    ensures { IfOk result (λ made. made ≡ kept query.now rec) }
{
    if is_plain(query) {
        return Ok(Some(rec));
    }
    if !has_small_numbers(&rec) {
        return Err(OutOfMemory);
    }
    let made = apply(alloc, query, rec)?;
    Ok(made)
}

/// A query without LET and WHERE.
fn is_plain(query: &Query) -> bool
    ensures { result ≡ (length query.now.lets == 0 && length query.now.conds == 0) }
{
    query.lets.is_empty() && query.conds.is_empty()
}
