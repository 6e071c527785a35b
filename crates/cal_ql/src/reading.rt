ghost use Rattle.std.specs.Prelude.{◌≡◌, IfOk, IfErr};
ghost use Rattle.cal_ql.specs.Clauses.{query_of, reading};
ghost use Rattle.cal_ql.specs.FirstFault.{IsRefused};
ghost use Rattle.cal_ql.specs.Grammar.{Means};
ghost use Rattle.cal_ql.specs.Steps.{Gives};
ghost use Rattle.cal_ql.specs.Valid.{IsValidQuery};

use crate::QueryEnd;
use crate::clauses::{Clauses, clauses_of};
use crate::names::Format;
use crate::once::first_of_each;
use crate::query::Query;
use crate::select::Selection;
use cal_value::{OutOfMemory, Seq};
use std::alloc::Global;

/// The query of a text. Time and memory are in its length.
pub fn parse_query(alloc: Global, text: &str) -> Result<Query, QueryEnd>
    // The query is what the text means, and valid.
    ensures meant { IfOk result (λ query. Means text.now query) }
    ensures valid { IfOk result (λ query. IsValidQuery query) }
    // The text is refused for its first fault.
    ensures refused { IfErr result (λ end. IsRefused text.now end) }
{
    read(alloc, text)
}

fn read(alloc: Global, text: &str) -> Result<Query, QueryEnd>
    ensures { Gives (λ query. query) result (reading text.now) }
{
    let clauses = clauses_of(alloc, text)?;
    Ok(query_of(alloc, clauses)?)
}

/// The query that the clauses make.
fn query_of(alloc: Global, clauses: Clauses) -> Result<Query, OutOfMemory>
    ensures { IfOk result (λ query. query ≡ query_of clauses) }
{
    let Clauses {
        lets,
        select,
        aggs,
        conds,
        group,
        order,
        format,
    } = clauses;
    let (select, selected) = match select {
        Some(Selection { items, aggs }) => (items, aggs),
        None => (None, Seq::new(alloc)),
    };
    let aggs = first_of_each(alloc, selected, aggs.unwrap_or(Seq::new(alloc)))?;
    Ok(Query {
        lets: lets.unwrap_or(Seq::new(alloc)),
        select,
        aggs,
        conds: conds.unwrap_or(Seq::new(alloc)),
        group,
        order: order.unwrap_or(Seq::new(alloc)),
        format: format.unwrap_or(Format::Expand),
    })
}
