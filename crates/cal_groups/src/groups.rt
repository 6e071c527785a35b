//! The groups of a channel from its tables.
ghost use Rattle.std.specs.Prelude.{◌≡◌, [], List, map, All, IfOk, OnOk};
ghost use Rattle.std.specs.List.{AllZip};
ghost use Rattle.cal_context.specs.Taking.{TakesMore};
ghost use Rattle.cal_context.specs.Tree.{Grows};
ghost use Rattle.cal_engine.specs.Answers.{answer_of};
ghost use Rattle.cal_engine.specs.Making.{MakesRows};
ghost use Rattle.cal_engine.specs.Rows.{IsOfGroups};
ghost use Rattle.cal_engine.specs.Standing.{HasFolded};
ghost use Rattle.cal_groups.specs.Columns.{AreColumns};
ghost use Rattle.cal_groups.specs.ContextRows.{MayTakeTable, TableMeans, records_of};
ghost use Rattle.cal_profile.specs.Groups.{channel_query as query_of, group_records};
ghost use Rattle.cal_profile.specs.TableRows.{KeyedRow, row_record};
ghost use Rattle.cal_ql.specs.Valid.{IsValidQuery};

use crate::columns::ResultColumns;
use crate::rows::take_rows;
use cal_context::{Context, Taker};
use cal_engine::{GroupedRows, SnapshotFold};
use cal_nodes::ContextNodes;
use cal_ql::Query;
use cal_records::{channel_query, take_grouped_rows};
use cal_script::ChannelQuery;
use cal_table::Table;
use cal_value::OutOfMemory;
use std::alloc::Global;

/// Hands the records of the groups of a channel to a taker, in the order of groups: those of the
/// records in place of the rows of its tables, whatever the rows mean in the context. A group may
/// stand in several tables, which need no merge for that. `nodes` has the numbers of the rows'
/// nodes, and an attribute has in the context the number that it has in the tables. The attributes
/// of results and the nodes of groups are added to the context, which only grows, also where memory
/// runs out.
///
/// It takes memory for the groups, time in the rows of all tables times the value attributes, once
/// in the nodes of the context, and n log n comparisons of groups. After an `Err` nothing is said of
/// the taker.
pub fn take_table_groups<T: Taker>(
    alloc: Global,
    channel: &ChannelQuery,
    tables: &[Table],
    nodes: &ContextNodes,
    context: &mut Context,
    taker: &mut T,
) -> Result<(), OutOfMemory>
    requires { All (MayTakeTable nodes.now context.old) tables.now }
    ensures taken { OnOk result ((keyed : List (List KeyedRow))
        → AllZip (TableMeans nodes.now context.old) tables.now keyed → TakesMore
        (T.has_taken taker.old context.old)
        (T.has_taken taker.new context.new)
        (group_records (query_of channel.now) (records_of channel.now keyed))) }
    ensures grows { Grows context.old context.new }
    ensures about { OnOk result (T.about taker.new ≡ T.about taker.old) }
{
    let query = channel_query(alloc, channel)?;
    let rows = group_rows(alloc, channel, &query, tables, nodes, context)?;
    take_grouped_rows(alloc, &rows, query.aggs.as_slice(), context, taker)?;
    Ok(())
}

/// The rows of the groups, which are made one by one.
fn group_rows(
    alloc: Global,
    channel: &ChannelQuery,
    query: &Query,
    tables: &[Table],
    nodes: &ContextNodes,
    context: &mut Context,
) -> Result<GroupedRows, OutOfMemory>
    requires rows { All (MayTakeTable nodes.now context.old) tables.now }
    requires valid { IsValidQuery query.now }
    requires groups { IsOfGroups query.now }
    ensures rows { IfOk result (λ rows. (keyed : List (List KeyedRow))
        → AllZip (TableMeans nodes.now context.old) tables.now keyed
        → MakesRows context.new query.now.aggs rows
        (answer_of query.now (records_of channel.now keyed)).rows.rows) }
    ensures grows { Grows context.old context.new }
{
    let mut fold = SnapshotFold::new(alloc, query, context)?;
    let columns = ResultColumns::new(alloc, channel.values.as_slice(), context)?;
    fold_tables(alloc, channel, &columns, tables, nodes, context, &mut fold)?;
    let rows = fold.grouped_rows(context)?;
    Ok(rows)
}

/// Adds the records in place of the rows of tables to their channel's query's fold of none.
fn fold_tables(
    alloc: Global,
    channel: &ChannelQuery,
    columns: &ResultColumns,
    tables: &[Table],
    nodes: &ContextNodes,
    context: &Context,
    fold: &mut SnapshotFold,
) -> Result<(), OutOfMemory>
    requires columns { AreColumns context.now channel.now.values columns.now }
    requires rows { All (MayTakeTable nodes.now context.now) tables.now }
    requires none { HasFolded fold.old context.now [] }
    ensures query { OnOk result (fold.new.query ≡ fold.old.query) }
    ensures folded { OnOk result ((keyed : List (List KeyedRow))
        → AllZip (TableMeans nodes.now context.now) tables.now keyed
        → HasFolded fold.new context.now (records_of channel.now keyed)) }
{
    for table in tables {
        take_table(alloc, channel, columns, table, nodes, context, fold)?;
    }
    Ok(())
}

/// Hands the records in place of a table's rows to a taker.
fn take_table<T: Taker>(
    alloc: Global,
    channel: &ChannelQuery,
    columns: &ResultColumns,
    table: &Table,
    nodes: &ContextNodes,
    context: &Context,
    taker: &mut T,
) -> Result<(), OutOfMemory>
    requires columns { AreColumns context.now channel.now.values columns.now }
    requires rows { MayTakeTable nodes.now context.now table.now }
    ensures taken { OnOk result ((keyed : List KeyedRow)
        → TableMeans nodes.now context.now table.now keyed → TakesMore
        (T.has_taken taker.old context.now)
        (T.has_taken taker.new context.now)
        (map (row_record channel.now) keyed)) }
    ensures about { OnOk result (T.about taker.new ≡ T.about taker.old) }
{
    let rows = table.rows();
    take_rows(
        alloc, channel, columns, nodes, rows.keys, rows.held, context, taker,
    )?;
    Ok(())
}
