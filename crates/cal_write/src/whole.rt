ghost use Rattle.std.specs.Prelude.{◌≡◌, ◌≤◌, [], IfOk, OnOk, IsErrOf, map};
ghost use Rattle.cal_base.specs.Faults.{Rose};
ghost use Rattle.cal_base.specs.Told.{Appends, AppendsFront};
ghost use Rattle.cal_write.specs.CanonicalText.{canonical_text};
ghost use Rattle.cal_write.specs.Interning.{Means, without_empty};
ghost use Rattle.cal_write.specs.Writer.{HasTaken};

use crate::Writer;
use crate::interning::intern_record;
use cal_base::{Failed, Sink};
use cal_context::{Context, Snapshot, Taker};
use cal_value::{OutOfMemory, Rec, Records, Text};
use std::alloc::Global;
use thiserror::Error;

/// Why records weren't written.
#[derive(Clone, Copy, Debug, PartialEq, Eq, Error)]
pub enum WriteEnd {
    #[error("a write failed")]
    WriteFault,
    #[error("out of memory")]
    OutOfMemory,
}

impl From<Failed> for WriteEnd {
    ghost use Rattle.std.specs.Prelude.{◌≡◌};
    ghost use Rattle.cal_write.specs.declared.whole.WriteEnd.TheVariants.{WriteFault};

    ghost from_gives = { λ _ e. e ≡ WriteFault };

    fn from(_failed: Failed) -> WriteEnd {
        WriteEnd::WriteFault
    }
}

impl From<OutOfMemory> for WriteEnd {
    ghost use Rattle.std.specs.Prelude.{◌≡◌};
    ghost use Rattle.cal_write.specs.declared.whole.WriteEnd.TheVariants.{OutOfMemory};

    ghost from_gives = { λ _ e. e ≡ OutOfMemory };

    fn from(_error: OutOfMemory) -> WriteEnd {
        WriteEnd::OutOfMemory
    }
}

/// The canonical text of all records.
pub fn cali_text(alloc: Global, records: &Records) -> Result<Text, OutOfMemory>
    ensures { IfOk result (λ text. text ≡ canonical_text records.now) }
{
    let writer = Writer::new(alloc)?;
    let mut context = Context::new(alloc);
    let mut snapshot = Snapshot::new(alloc);
    text_by(alloc, &mut context, writer, &mut snapshot, records)
}

/// The canonical text of all records, by a writer of none yet.
fn text_by(
    alloc: Global,
    context: &mut Context,
    writer: Writer,
    snapshot: &mut Snapshot,
    records: &Records,
) -> Result<Text, OutOfMemory>
    requires { HasTaken writer context.old [] }
    ensures { IfOk result (λ text. text ≡ canonical_text records.now) }
{
    let mut writer = writer;
    take_all(alloc, context, &mut writer, snapshot, records)?;
    writer.finish(context, snapshot)
}

/// Hands the rows to a writer, and makes a snapshot of the globals.
fn take_all(
    alloc: Global,
    context: &mut Context,
    writer: &mut Writer,
    snapshot: &mut Snapshot,
    records: &Records,
) -> Result<(), OutOfMemory>
    requires { HasTaken writer.old context.old [] }
    ensures rows { OnOk result
        (HasTaken writer.new context.new (map without_empty records.now.rows)) }
    ensures globals { OnOk result (Means context.new snapshot.new records.now.globals) }
{
    take_rows(alloc, context, writer, snapshot, records.rows.as_slice())?;
    intern_record(alloc, context, &records.globals, snapshot)?;
    Ok(())
}

/// Puts rows into a context, and hands each to a writer.
fn take_rows(
    alloc: Global,
    context: &mut Context,
    writer: &mut Writer,
    snapshot: &mut Snapshot,
    rows: &[Rec],
) -> Result<(), OutOfMemory>
    requires { HasTaken writer.old context.old [] }
    ensures { OnOk result (HasTaken writer.new context.new (map without_empty rows.now)) }
{
    for rec in rows {
        intern_record(alloc, context, rec, snapshot)?;
        writer.take(context, snapshot)?;
    }
    Ok(())
}

/// Writes the canonical text of all records. The whole text is made before its first byte is
/// written.
pub fn write_records<W: Sink>(
    alloc: Global,
    output: &mut W,
    records: &Records,
) -> Result<(), WriteEnd>
    ensures ok { OnOk result
        (Appends (W.written output.old) (W.written output.new) (canonical_text records.now)) }
    ensures later { W.faults output.old ≤ W.faults output.new }

    // A fault may leave a front of the text behind what was written.
    ensures fault { IsErrOf result WriteEnd.WriteFault
        → Rose (W.faults output.old) (W.faults output.new) }
    ensures front { IsErrOf result WriteEnd.WriteFault
        → AppendsFront (W.written output.old) (W.written output.new) (canonical_text records.now) }
    ensures memory { IsErrOf result WriteEnd.OutOfMemory → output.new ≡ output.old }
{
    let text = cali_text(alloc, records)?;
    output.put(text.as_str().as_bytes())?;
    Ok(())
}
