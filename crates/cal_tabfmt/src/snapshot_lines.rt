ghost use Rattle.std.specs.Prelude.{◌≡◌, map, None, IfOk};
ghost use Rattle.std.specs.List.{All};
ghost use Rattle.cal_rowset.specs.NumberedRows.{IsWithin, in_order, meant};
ghost use Rattle.cal_tabfmt.specs.Expand.{expand_lines};

use crate::ExpandWriter;
use cal_context::{Context, Snapshot, Taker};
use cal_rowset::SnapshotList;
use cal_value::{OutOfMemory, Text};
use std::alloc::Global;

/// The lines of rows by number, in the order of these places, by their own names.
pub(crate) fn snapshot_lines(
    alloc: Global,
    context: &Context,
    rows: &SnapshotList,
    order: &[usize],
) -> Result<Text, OutOfMemory>
    requires { All (IsWithin context.now) rows.now }
    ensures { IfOk result (λ text. text
        ≡ expand_lines None (map (meant context.now) (in_order rows.now order.now))) }
{
    let mut writer = ExpandWriter::seeded(alloc, context.seeds());
    let mut row = Snapshot::new(alloc);
    for place in order {
        rows.copy_to(alloc, *place, &mut row)?;
        writer.take(context, &row)?;
    }
    Ok(writer.finish())
}
