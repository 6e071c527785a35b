//! The groups of a channel, handed to a taker.
ghost use Rattle.std.specs.Prelude.{◌≡◌, List, map, true, IfNone, IfOk, IfSome, OnOk, is_some};
ghost use Rattle.std.specs.Prelude.{option_copied};
ghost use Rattle.cal_context.specs.Taking.{TakesMore};
ghost use Rattle.cal_context.specs.Tree.{Grows};
ghost use Rattle.cal_engine.specs.Answers.{answer_of};
ghost use Rattle.cal_engine.specs.Making.{MakesRows};
ghost use Rattle.cal_engine.specs.Rows.{IsOfGroups};
ghost use Rattle.cal_engine.specs.Sorting.{sorted};
ghost use Rattle.cal_profile.specs.Groups.{group_records, rows_cmp};
ghost use Rattle.cal_ql.specs.Valid.{IsValidQuery};
ghost use Rattle.cal_ql.specs.declared.query.Agg.{Agg as AnAgg};
ghost use Rattle.cal_records.specs.Records.{grouped};
ghost use Rattle.cal_records.specs.Told.{CountsRefused, told};
ghost use Rattle.cal_rowset.specs.Answers.{nth_row};
ghost use Rattle.cal_run.specs.Numbers.{AreNumbered};
ghost use Rattle.cal_run.specs.Runs.{snapshots};
ghost use Rattle.cal_run.specs.Seeing.{CanBeRead};
ghost use Rattle.cal_script.specs.Valid.{IsRunnable};
ghost use Rattle.cal_value.specs.declared.record.Rec.{Rec as ARecord};

use crate::query::channel_query;
use crate::run::take_snapshots;
use crate::sorting::sorted_by_group;
use cal_context::{Context, Snapshot, Taker};
use cal_engine::{GroupedRows, SnapshotFold};
use cal_ql::{Agg, Query};
use cal_run::Numbers;
use cal_script::{Channel, Journal, Script};
use cal_value::OutOfMemory;
use std::alloc::Global;

/// Hands the records of the groups of a channel with aggregate to a taker, in the order of groups.
/// It takes time in the lines, and n log n comparisons of groups.
pub(crate) fn take_groups<T: Taker>(
    alloc: Global,
    script: &Script,
    journal: Option<&Journal>,
    channel: &Channel,
    numbers: &Numbers,
    context: &mut Context,
    taker: &mut T,
) -> Result<Option<u64>, OutOfMemory>
    requires runnable { IsRunnable script.now }
    requires read { IfSome journal (λ journal. CanBeRead script.now journal.now) }
    requires numbered { AreNumbered context.old script.now numbers.now }
    ensures taken { OnOk result (TakesMore
        (T.has_taken taker.old context.old)
        (T.has_taken taker.new context.new)
        (grouped script.now (told script.now (option_copied journal.entry)) channel.now)) }
    ensures refused { IfOk result (CountsRefused script.now) }
    ensures counted { IfNone journal.entry
        (IfOk result (λ counted. is_some counted ≡ channel.now.aggregate)) }
    ensures grows { Grows context.old context.new }
    ensures about { OnOk result (T.about taker.new ≡ T.about taker.old) }
{
    if !channel.aggregate {
        return Ok(None);
    }
    let query = channel_query(alloc, &channel.query)?;
    take_query(
        alloc, script, journal, channel, &query, numbers, context, taker,
    )
}

/// The same by the channel's query.
fn take_query<T: Taker>(
    alloc: Global,
    script: &Script,
    journal: Option<&Journal>,
    channel: &Channel,
    query: &Query,
    numbers: &Numbers,
    context: &mut Context,
    taker: &mut T,
) -> Result<Option<u64>, OutOfMemory>
    requires runnable { IsRunnable script.now }
    requires read { IfSome journal (λ journal. CanBeRead script.now journal.now) }
    requires numbered { AreNumbered context.old script.now numbers.now }
    requires valid { IsValidQuery query.now }
    requires groups { IsOfGroups query.now }
    ensures taken { OnOk result (TakesMore
        (T.has_taken taker.old context.old)
        (T.has_taken taker.new context.new)
        (group_records query.now (snapshots script.now (told script.now
        (option_copied journal.entry)) channel.now))) }
    ensures refused { IfOk result (CountsRefused script.now) }
    ensures counted { IfNone journal.entry (IfOk result (λ counted. is_some counted ≡ true)) }
    ensures grows { Grows context.old context.new }
    ensures about { OnOk result (T.about taker.new ≡ T.about taker.old) }
{
    let (rows, refused) = group_rows(alloc, script, journal, channel, query, numbers, context)?;
    take_grouped_rows(alloc, &rows, query.aggs.as_slice(), context, taker)?;
    Ok(refused)
}

/// The records of a channel's groups, which are made one by one.
fn group_rows(
    alloc: Global,
    script: &Script,
    journal: Option<&Journal>,
    channel: &Channel,
    query: &Query,
    numbers: &Numbers,
    context: &mut Context,
) -> Result<(GroupedRows, Option<u64>), OutOfMemory>
    requires runnable { IsRunnable script.now }
    requires read { IfSome journal (λ journal. CanBeRead script.now journal.now) }
    requires numbered { AreNumbered context.old script.now numbers.now }
    requires valid { IsValidQuery query.now }
    requires groups { IsOfGroups query.now }
    ensures rows { IfOk result (λ rows. MakesRows context.new query.now.aggs rows.0
        (answer_of query.now (snapshots script.now (told script.now (option_copied journal.entry))
        channel.now)).rows.rows) }
    ensures refused { IfOk result (λ rows. CountsRefused script.now rows.1) }
    ensures counted { IfNone journal.entry (IfOk result (λ rows. is_some rows.1 ≡ true)) }
    ensures grows { Grows context.old context.new }
{
    let mut fold = SnapshotFold::new(alloc, query, context)?;
    let refused = take_snapshots(alloc, script, journal, channel, numbers, context, &mut fold)?;
    let rows = fold.grouped_rows(context)?;
    Ok((rows, refused))
}

/// Hands the rows of groups to a taker, in the order of groups, each made as it comes. `aggs` are
/// the kernels of the query that made them. It takes memory for the order of the rows, and n log n
/// comparisons of groups at most. After an `Err` nothing is said of the taker.
pub fn take_grouped_rows<T: Taker>(
    alloc: Global,
    rows: &GroupedRows,
    aggs: &[Agg],
    context: &Context,
    taker: &mut T,
) -> Result<(), OutOfMemory>
    ensures taken { OnOk result ((rs : List ARecord)
        → MakesRows context.now aggs.now rows.now rs → TakesMore
        (T.has_taken taker.old context.now)
        (T.has_taken taker.new context.now)
        (sorted (rows_cmp aggs.now) rs)) }
    ensures about { OnOk result (T.about taker.new ≡ T.about taker.old) }
{
    let order = sorted_by_group(alloc, context, aggs, rows)?;
    take_rows(alloc, rows, order.as_slice(), context, taker)
}

/// Makes the rows of these numbers, and hands each to a taker.
fn take_rows<T: Taker>(
    alloc: Global,
    rows: &GroupedRows,
    order: &[u32],
    context: &Context,
    taker: &mut T,
) -> Result<(), OutOfMemory>
    ensures taken { OnOk result ((aggs : List AnAgg) (rs : List ARecord)
        → MakesRows context.now aggs rows.now rs → TakesMore
        (T.has_taken taker.old context.now)
        (T.has_taken taker.new context.now)
        (map (nth_row rs) order.now)) }
    ensures about { OnOk result (T.about taker.new ≡ T.about taker.old) }
{
    let mut row = Snapshot::new(alloc);
    for number in order {
        rows.fill(context, *number as usize, &mut row)?;
        taker.take(context, &row)?;
    }
    Ok(())
}
