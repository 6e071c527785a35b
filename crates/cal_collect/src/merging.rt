//! Merging a part into its channel's table.
ghost use Rattle.std.specs.Prelude.{◌≡◌, ◌+◌, ◌≤◌, ◌^◌, OnOk, Some, slice_get};
ghost use Rattle.cal_collect.specs.Collecting.{FitsAt, MergedAt};

use crate::Part;
use cal_table::Table;
use cal_value::OutOfMemory;

/// Merges a part into its channel's table. An `Err` is want of memory: the part is dropped.
pub(crate) fn merge_in(tables: &mut Vec<Table>, part: Part) -> Result<(), OutOfMemory>
    requires fits { FitsAt tables.old.items part }
    ensures merged { OnOk result (MergedAt tables.old.items part tables.new.items) }
{
    let Part { channel, table } = part;
    match tables[channel as usize].merge(table) {
        Ok(()) => Ok(()),
        Err(back) => {
            drop(back);
            Err(OutOfMemory)
        }
    }
}
