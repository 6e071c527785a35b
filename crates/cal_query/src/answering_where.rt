//! The answer of a query over those rows that a guard lets through.
ghost use Rattle.std.specs.Prelude.{◌≡◌, None, false, filter, IfOk, IfErr};
ghost use Rattle.cal_base.specs.Change.{change_of};
ghost use Rattle.cal_context.specs.Tree.{Tree};
ghost use Rattle.cal_engine.specs.Answers.{answer_of};
ghost use Rattle.cal_filter.specs.Conditions.{where_holds};
ghost use Rattle.cal_ql.specs.Valid.{IsValidQuery};
ghost use Rattle.cal_rowset.specs.Numbers.{rowset_of};
ghost use Rattle.cal_tabfmt.specs.Expand.{expand_lines};
ghost use Rattle.cal_query.specs.Layout.{LaysOutWhere, StopsRows};
ghost use Rattle.cal_query.specs.Seeing.{SeesRows};

use crate::answering::{is_plain, lay_out_found};
use crate::folding::new_fold;
use crate::guarded::Guarded;
use crate::seeing::{Seen, see_rows};
use crate::{Guard, RowsEnd};
use cal_base::Source;
use cal_context::Context;
use cal_ql::Query;
use cal_rowset::SnapshotRowset;
use cal_seeds::Seeds;
use cal_tabfmt::ExpandWriter;
use cal_value::Text;
use std::alloc::Global;

/// What a query prints of those rows of the stream that an input has left, at most `limit` bytes,
/// which a guard lets through. The guard is asked before LET, and no other row costs more than that.
/// Memory, time and seeds are else those of `query_text`, without the globals.
pub fn guarded_text<S: Source, K: Guard + Drop>(
    alloc: Global,
    seeds: Seeds,
    input: &mut S,
    limit: u64,
    guard: K,
    query: &Query,
) -> Result<Text, RowsEnd>
    requires valid { IsValidQuery query.now }
    requires answers { (t : Tree) → K.answers_in guard t }

    // All that was left was read, and the answer over the rows of which the conditions hold laid
    // out.
    ensures text { IfOk result (λ text. LaysOutWhere K.conditions query.now limit
        (change_of S.left S.faults input.old input.new) text) }

    // Why not.
    ensures refused { IfErr result (λ end.
        StopsRows end limit (change_of S.left S.faults input.old input.new)) }
{
    if is_plain(query) {
        return rows_where(alloc, seeds, input, limit, guard);
    }
    let answer = answer_where(alloc, seeds, input, limit, guard, query)?;
    let text = lay_out_found(alloc, query.format, &answer);
    drop(answer);
    text
}

/// The plain lines of the rows, which are laid out as they come.
fn rows_where<S: Source, K: Guard + Drop>(
    alloc: Global,
    seeds: Seeds,
    input: &mut S,
    limit: u64,
    guard: K,
) -> Result<Text, RowsEnd>
    requires { (t : Tree) → K.answers_in guard t }
    ensures text { IfOk result (λ text.
        SeesRows false limit (change_of S.left S.faults input.old input.new)
        (λ rows. text ≡ expand_lines None (filter (where_holds K.conditions) rows))) }
    ensures refused { IfErr result (λ end.
        StopsRows end limit (change_of S.left S.faults input.old input.new)) }
{
    let taker = Guarded {
        guard,
        taker: ExpandWriter::seeded(alloc, seeds),
    };
    let seen = see_rows(
        alloc,
        input,
        limit,
        false,
        Context::seeded(alloc, seeds),
        taker,
    )?;
    let Seen { context, taker } = seen;
    drop(context);
    let Guarded { guard, taker } = taker;
    drop(guard);
    Ok(taker.finish())
}

/// The answer of a query over the rows.
fn answer_where<S: Source, K: Guard + Drop>(
    alloc: Global,
    seeds: Seeds,
    input: &mut S,
    limit: u64,
    guard: K,
    query: &Query,
) -> Result<SnapshotRowset, RowsEnd>
    requires valid { IsValidQuery query.now }
    requires answers { (t : Tree) → K.answers_in guard t }
    ensures answer { IfOk result (λ answer.
        SeesRows false limit (change_of S.left S.faults input.old input.new)
        (λ rows. rowset_of answer
        ≡ answer_of query.now (filter (where_holds K.conditions) rows))) }
    ensures refused { IfErr result (λ end.
        StopsRows end limit (change_of S.left S.faults input.old input.new)) }
{
    let Seen { context, taker } = new_fold(alloc, seeds, query)?;
    let taker = Guarded { guard, taker };
    let seen = see_rows(alloc, input, limit, false, context, taker)?;
    let Seen { context, taker } = seen;
    let Guarded { guard, taker } = taker;
    drop(guard);
    Ok(taker.finish(context)?)
}
