//! The text of the records of a run.
ghost use Rattle.std.specs.Prelude.{◌≡◌, [], IfOk, OnOk};
ghost use Rattle.cal_records.specs.Globals.{Means};
ghost use Rattle.cal_records.specs.Records.{globals_of, records_of, run_rows};
ghost use Rattle.cal_records.specs.Told.{CountsRefused};
ghost use Rattle.cal_run.specs.Numbers.{AreNumbered};
ghost use Rattle.cal_run.specs.Plain.{plain};
ghost use Rattle.cal_run.specs.Seeing.{CanBeRead};
ghost use Rattle.cal_script.specs.Valid.{IsRunnable};
ghost use Rattle.cal_write.specs.CanonicalText.{canonical_text};
ghost use Rattle.cal_write.specs.Writer.{HasTaken};

use cal_context::{Context, Snapshot};
use cal_records::{put_globals, take_plain_run, take_run};
use cal_run::Numbers;
use cal_script::{Journal, Script};
use cal_seeds::Seeds;
use cal_value::{OutOfMemory, Text};
use cal_write::Writer;
use std::alloc::Global;

/// The `.cali` text of the records of a run. It takes time in the lines of the script for each
/// channel, in the groups and in the length of the text, however deep the open values are. What the
/// script chooses is hashed by the seeds.
pub fn run_text(
    alloc: Global,
    seeds: Seeds,
    script: &Script,
    journal: &Journal,
) -> Result<Text, OutOfMemory>
    requires runnable { IsRunnable script.now }
    requires read { CanBeRead script.now journal.now }
    ensures { IfOk result (λ text. text ≡ canonical_text (records_of script.now journal.now)) }
{
    let mut context = Context::seeded(alloc, seeds);
    run_text_in(alloc, script, journal, &mut context)
}

/// The same in a context without attributes.
fn run_text_in(
    alloc: Global,
    script: &Script,
    journal: &Journal,
    context: &mut Context,
) -> Result<Text, OutOfMemory>
    requires runnable { IsRunnable script.now }
    requires read { CanBeRead script.now journal.now }
    requires none { context.old.attributes ≡ [] }
    ensures { IfOk result (λ text. text ≡ canonical_text (records_of script.now journal.now)) }
{
    let numbers = Numbers::of(alloc, script, context)?;
    let mut writer = Writer::seeded(alloc, context.seeds())?;
    let Ok(globals) = write_run(alloc, script, journal, &numbers, context, &mut writer) else {
        drop(writer);
        return Err(OutOfMemory);
    };
    writer.finish(context, &globals)
}

/// Hands the rows of a run to a writer that has taken none, and puts its globals into the context.
fn write_run(
    alloc: Global,
    script: &Script,
    journal: &Journal,
    numbers: &Numbers,
    context: &mut Context,
    writer: &mut Writer,
) -> Result<Snapshot, OutOfMemory>
    requires runnable { IsRunnable script.now }
    requires read { CanBeRead script.now journal.now }
    requires numbered { AreNumbered context.old script.now numbers.now }
    requires none { HasTaken writer.old context.old [] }
    ensures taken { OnOk result
        (HasTaken writer.new context.new (run_rows script.now journal.now)) }
    ensures globals { IfOk result (λ globals.
        Means context.new globals (globals_of script.now.globals)) }
{
    take_run(alloc, script, journal, numbers, context, writer)?;
    put_globals(alloc, script.globals.as_slice(), context)
}

/// The `.cali` text of the records of the run of the threads one after another, and how many lines
/// were refused, where some channel was run. Nothing is kept of a line.
pub(crate) fn plain_text(
    alloc: Global,
    seeds: Seeds,
    script: &Script,
) -> Result<(Text, Option<u64>), OutOfMemory>
    requires runnable { IsRunnable script.now }
    ensures text { IfOk result (λ made. made.0
        ≡ canonical_text (records_of script.now (plain script.now))) }
    ensures refused { IfOk result (λ made. CountsRefused script.now made.1) }
{
    let mut context = Context::seeded(alloc, seeds);
    plain_text_in(alloc, script, &mut context)
}

/// The same in a context without attributes.
fn plain_text_in(
    alloc: Global,
    script: &Script,
    context: &mut Context,
) -> Result<(Text, Option<u64>), OutOfMemory>
    requires runnable { IsRunnable script.now }
    requires none { context.old.attributes ≡ [] }
    ensures text { IfOk result (λ made. made.0
        ≡ canonical_text (records_of script.now (plain script.now))) }
    ensures refused { IfOk result (λ made. CountsRefused script.now made.1) }
{
    let numbers = Numbers::of(alloc, script, context)?;
    let mut writer = Writer::seeded(alloc, context.seeds())?;
    let Ok((globals, refused)) = write_plain(alloc, script, &numbers, context, &mut writer) else {
        drop(writer);
        return Err(OutOfMemory);
    };
    let text = writer.finish(context, &globals)?;
    Ok((text, refused))
}

/// The same as `write_run` of the threads one after another.
fn write_plain(
    alloc: Global,
    script: &Script,
    numbers: &Numbers,
    context: &mut Context,
    writer: &mut Writer,
) -> Result<(Snapshot, Option<u64>), OutOfMemory>
    requires runnable { IsRunnable script.now }
    requires numbered { AreNumbered context.old script.now numbers.now }
    requires none { HasTaken writer.old context.old [] }
    ensures taken { OnOk result
        (HasTaken writer.new context.new (run_rows script.now (plain script.now))) }
    ensures globals { IfOk result (λ made.
        Means context.new made.0 (globals_of script.now.globals)) }
    ensures refused { IfOk result (λ made. CountsRefused script.now made.1) }
{
    let refused = take_plain_run(alloc, script, numbers, context, writer)?;
    let globals = put_globals(alloc, script.globals.as_slice(), context)?;
    Ok((globals, refused))
}
