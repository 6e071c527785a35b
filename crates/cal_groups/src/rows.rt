//! The records that stand in place of a table's rows, handed over one by one.
ghost use Rattle.std.specs.Prelude.{◌≡◌, ◌+◌, ◌≤◌, List, Option, length, map, take, drop, OnOk};
ghost use Rattle.std.specs.List.{AllZip};
ghost use Rattle.cal_context.specs.Snapshots.{IsIn, meaning};
ghost use Rattle.cal_context.specs.Taking.{TakesMore};
ghost use Rattle.cal_context.specs.declared.numbers.NodeNumber as node;
ghost use Rattle.cal_groups.specs.Columns.{AreColumns};
ghost use Rattle.cal_groups.specs.ContextRows.{MayTake, MayTakeRow, RowMeans};
ghost use Rattle.cal_groups.specs.Keys.{numbers_of};
ghost use Rattle.cal_profile.specs.TableRows.{KeyedRow, row_record};
ghost use Rattle.cal_table.specs.Rows.{rows_of};

use crate::columns::ResultColumns;
use crate::keys::put_key;
use crate::numbers::numbers_of_keys;
use cal_agg::AggRow;
use cal_context::{Context, NodeNumber, Snapshot, Taker};
use cal_nodes::ContextNodes;
use cal_script::ChannelQuery;
use cal_table::TableKey;
use cal_value::OutOfMemory;
use std::alloc::Global;

/// Hands the records in place of rows to a taker, in the order of the rows: of each its key, and
/// what is held. One snapshot serves for all. The numbers of the keys' nodes are looked up before,
/// and take four bytes each.
pub(crate) fn take_rows<T: Taker>(
    alloc: Global,
    channel: &ChannelQuery,
    columns: &ResultColumns,
    nodes: &ContextNodes,
    keys: &[TableKey],
    held: &[AggRow],
    context: &Context,
    taker: &mut T,
) -> Result<(), OutOfMemory>
    requires columns { AreColumns context.now channel.now.values columns.now }
    requires long { length keys.now ≡ length held.now }
    requires rows { MayTake nodes.now context.now (rows_of keys.now held.now) }
    ensures taken { OnOk result ((keyed : List KeyedRow) → AllZip (RowMeans nodes.now context.now)
        (rows_of keys.now held.now) keyed → TakesMore
        (T.has_taken taker.old context.now)
        (T.has_taken taker.new context.now)
        (map (row_record channel.now) keyed)) }
    ensures about { OnOk result (T.about taker.new ≡ T.about taker.old) }
{
    let numbers = numbers_of_keys(alloc, nodes, keys)?;
    let mut snapshot = Snapshot::new(alloc);
    let mut from = 0;
    for place in 0..keys.len() {
        let key = &keys[place];
        let row = &held[place];
        let many = key.refs.as_slice().len();
        let own = part(&numbers, from, many);
        fill(
            alloc,
            channel,
            columns,
            own,
            key,
            row,
            context,
            &mut snapshot,
        )?;
        taker.take(context, &snapshot)?;
        from += many;
    }
    Ok(())
}

/// So many numbers from a place on.
fn part(numbers: &[NodeNumber], from: usize, many: usize) -> &[NodeNumber]
    requires { from + many ≤ length numbers.now }
    ensures { result.now ≡ take many (drop from numbers.now) }
{
    &numbers[from..from + many]
}

/// Makes a snapshot of the record in place of a row. The numbers are those of its key's nodes.
fn fill(
    alloc: Global,
    channel: &ChannelQuery,
    columns: &ResultColumns,
    numbers: &[NodeNumber],
    key: &TableKey,
    held: &AggRow,
    context: &Context,
    snapshot: &mut Snapshot,
) -> Result<(), OutOfMemory>
    requires columns { AreColumns context.now channel.now.values columns.now }
    requires row { (nodes : List (Option node.NodeNumber))
        × (numbers.now ≡ numbers_of nodes key.now)
        × MayTakeRow nodes context.now (record { key = key.now; held = held.now }) }
    ensures within { OnOk result (IsIn context.now snapshot.new) }
    ensures means { OnOk result ((nodes : List (Option node.NodeNumber)) (keyed : KeyedRow)
        → numbers.now ≡ numbers_of nodes key.now
        → RowMeans nodes context.now (record { key = key.now; held = held.now }) keyed
        → meaning context.now snapshot.new ≡ row_record channel.now keyed) }
{
    put_key(alloc, numbers, &key.imms, snapshot)?;
    columns.push_results(channel, context, held, &snapshot.nodes, &mut snapshot.imms)?;
    Ok(())
}
