//! Records put behind others.
ghost use Rattle.std.specs.Prelude.{◌≡◌, ◌++◌, OnOk};

use cal_value::{OutOfMemory, Rec, Seq, TryCopy};
use std::alloc::Global;

/// Adds copies of records. An `Err` may leave some.
pub(crate) fn push_copies(
    alloc: Global,
    records: &[Rec],
    rows: &mut Seq<Rec>,
) -> Result<(), OutOfMemory>
    ensures { OnOk result (rows.new ≡ rows.old ++ records.now) }
{
    for record in records {
        rows.push(record.copy(alloc)?)?;
    }
    Ok(())
}

/// Adds records. An `Err` may leave some.
pub(crate) fn push_all(records: Seq<Rec>, rows: &mut Seq<Rec>) -> Result<(), OutOfMemory>
    ensures { OnOk result (rows.new ≡ rows.old ++ records) }
{
    for record in records.into_vec() {
        rows.push(record)?;
    }
    Ok(())
}
