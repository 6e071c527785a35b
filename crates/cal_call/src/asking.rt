//! The query that the words ask for.
ghost use Rattle.std.specs.Prelude.{◌≡◌, ◌⊎◌, Bool, Ok, Err, Some, IfOk, IfErr};
ghost use Rattle.cal_ql.specs.Valid.{IsValidQuery};
ghost use Rattle.cal_call.specs.Tasks.{QueryTask, by_text, task_of};

use crate::words::text_at;
use crate::{Command, Fault};
use cal_ql::{Query, QueryEnd, parse_query};
use std::alloc::Global;

/// The query that the words ask for, or why its text is refused.
pub fn asked_query(alloc: Global, words: &[String], q: Option<u32>) -> Result<Query, Fault>
    ensures asked { IfOk result (λ query. (join : Bool)
        → (task_of words.now (Command.Query q join) ≡ Ok (QueryTask query join))) }
    ensures valid { IfOk result (λ query. IsValidQuery query) }
    ensures refused { IfErr result (λ fault. (fault ≡ Fault.OutOfMemory) ⊎ ((join : Bool)
        → (task_of words.now (Command.Query q join) ≡ Err (by_text fault)))) }
{
    match parse_query(alloc, text_at(words, q)) {
        Ok(query) => Ok(query),
        Err(QueryEnd::BadQuery { place, kind }) => Err(Fault::BadQuery { place, kind }),
        Err(QueryEnd::OutOfMemory) => Err(Fault::OutOfMemory),
    }
}
