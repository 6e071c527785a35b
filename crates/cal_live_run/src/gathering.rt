//! What the threads have left in their channels stands beside what was collected of them.
ghost use Rattle.std.specs.Prelude.{◌≡◌, IfOk, OnOk, map};
ghost use Rattle.cal_channel.specs.Places.{lists_of};
ghost use Rattle.cal_handover.specs.Places.{emptied};
ghost use Rattle.cal_live_run.specs.Gathering.{AreGathered, MayGatherAll};

use cal_channel::ThreadChannel;
use cal_handover::tables_at;
use cal_table::Table;
use cal_value::OutOfMemory;
use std::alloc::Global;

/// The tables of each channel: those that the threads have left there, and behind them the one that
/// was collected. Tables and each thread's list are by channels in their order. Traces and readings
/// stay in the channels, and the tables there are left empty. An `Err` is want of memory: then the
/// tables are lost, and nothing is said of the channels. It merges nothing.
pub(crate) fn gather_tables(
    alloc: Global,
    mut tables: Vec<Table>,
    channels: &mut [Vec<ThreadChannel>],
) -> Result<Vec<Vec<Table>>, OutOfMemory>
    requires { MayGatherAll tables.items (lists_of channels.old) }
    ensures gathered { IfOk result (λ alls. AreGathered tables.items (lists_of channels.old)
        (lists_of alls.items)) }
    ensures left { OnOk result
        (lists_of channels.new ≡ map (map emptied) (lists_of channels.old)) }
{
    let mut alls = Vec::with_capacity(alloc, tables.len())?;
    while let Some(table) = tables.pop() {
        let place = tables.len();
        let mut own = tables_at(alloc, place, channels)?;
        own.push(table)?;
        alls.push(own)?;
    }
    alls.reverse();
    Ok(alls)
}
