ghost use Rattle.std.specs.Prelude.{◌≡◌, None, IfOk, IfErr};
ghost use Rattle.cal_base.specs.Change.{change_of};
ghost use Rattle.cal_engine.specs.Answers.{answer_of};
ghost use Rattle.cal_ql.specs.Valid.{IsValidQuery};
ghost use Rattle.cal_rowset.specs.Numbers.{rowset_of};
ghost use Rattle.cal_tabfmt.specs.Expand.{expand_lines};
ghost use Rattle.cal_query.specs.Layout.{LaysOut, StopsRows, layout};
ghost use Rattle.cal_query.specs.Plain.{is_expand, is_nil, is_none, is_plain};
ghost use Rattle.cal_query.specs.Seeing.{SeesRows};
ghost use Rattle.cal_query.specs.declared.end.RowsEnd.TheVariants as ends;

use crate::RowsEnd;
use crate::folding::new_fold;
use crate::layout::lay_out;
use crate::seeing::{Seen, see_rows};
use cal_base::Source;
use cal_context::Context;
use cal_ql::{Format, Query};
use cal_rowset::SnapshotRowset;
use cal_seeds::Seeds;
use cal_tabfmt::ExpandWriter;
use cal_value::Text;
use std::alloc::Global;

/// What a query prints of the stream that an input has left, at most `limit` bytes, with the
/// globals joined to each row where that is asked. Time is in the entries of the rows and in the
/// text; memory is in what the query keeps, its groups or its rows, in the nodes and the text, and
/// where the globals are joined in the rows too. A query without a clause keeps no row. What the
/// stream chooses is hashed by the seeds.
pub fn query_text<S: Source>(
    alloc: Global,
    seeds: Seeds,
    input: &mut S,
    limit: u64,
    join: bool,
    query: &Query,
) -> Result<Text, RowsEnd>
    requires { IsValidQuery query.now }

    // All that was left was read, and the answer over its rows laid out.
    ensures text { IfOk result (λ text.
        LaysOut query.now join limit (change_of S.left S.faults input.old input.new) text) }

    // Why not.
    ensures refused { IfErr result (λ end.
        StopsRows end limit (change_of S.left S.faults input.old input.new)) }
{
    if is_plain(query) {
        return rows_text(alloc, seeds, input, limit, join);
    }
    let answer = find_answer(alloc, seeds, input, limit, join, query)?;
    let text = lay_out_found(alloc, query.format, &answer);
    drop(answer);
    text
}

/// The layout of an answer that was found.
pub(crate) fn lay_out_found(
    alloc: Global,
    format: Format,
    answer: &SnapshotRowset,
) -> Result<Text, RowsEnd>
    ensures text { IfOk result (λ text. text ≡ layout format (rowset_of answer.now)) }
    ensures refused { IfErr result (λ end. end ≡ ends.OutOfMemory) }
{
    Ok(lay_out(alloc, format, answer)?)
}

/// Whether a query has no clause but FORMAT expand.
pub(crate) fn is_plain(query: &Query) -> bool
    ensures { result ≡ is_plain query.now }
{
    query.lets.is_empty()
        && query.select.is_none()
        && query.aggs.is_empty()
        && query.conds.is_empty()
        && query.group.is_none()
        && query.order.is_empty()
        && query.format == Format::Expand
}

/// The plain lines of the rows, which are laid out as they come.
fn rows_text<S: Source>(
    alloc: Global,
    seeds: Seeds,
    input: &mut S,
    limit: u64,
    join: bool,
) -> Result<Text, RowsEnd>
    ensures text { IfOk result (λ text.
        SeesRows join limit (change_of S.left S.faults input.old input.new)
        (λ rows. text ≡ expand_lines None rows)) }
    ensures refused { IfErr result (λ end.
        StopsRows end limit (change_of S.left S.faults input.old input.new)) }
{
    let writer = ExpandWriter::seeded(alloc, seeds);
    let seen = see_rows(
        alloc,
        input,
        limit,
        join,
        Context::seeded(alloc, seeds),
        writer,
    )?;
    let Seen { context, taker } = seen;
    drop(context);
    Ok(taker.finish())
}

/// The answer of a query over the rows.
fn find_answer<S: Source>(
    alloc: Global,
    seeds: Seeds,
    input: &mut S,
    limit: u64,
    join: bool,
    query: &Query,
) -> Result<SnapshotRowset, RowsEnd>
    requires { IsValidQuery query.now }
    ensures answer { IfOk result (λ answer.
        SeesRows join limit (change_of S.left S.faults input.old input.new)
        (λ rows. rowset_of answer ≡ answer_of query.now rows)) }
    ensures refused { IfErr result (λ end.
        StopsRows end limit (change_of S.left S.faults input.old input.new)) }
{
    let Seen { context, taker } = new_fold(alloc, seeds, query)?;
    let seen = see_rows(alloc, input, limit, join, context, taker)?;
    let Seen { context, taker } = seen;
    Ok(taker.finish(context)?)
}
