//! The rows of a run, handed to a taker.
ghost use Rattle.std.specs.Prelude.{◌≡◌, [], ◌||◌, true, IfNone, IfOk, IfSome, OnOk, is_some};
ghost use Rattle.std.specs.Prelude.{option_copied};
ghost use Rattle.cal_context.specs.Taking.{TakesMore};
ghost use Rattle.cal_context.specs.Tree.{Grows};
ghost use Rattle.cal_records.specs.Records.{channel_rows, records_of, run_rows, traced};
ghost use Rattle.cal_records.specs.Told.{CountsRefused, IsCounted, is_kept, told};
ghost use Rattle.cal_run.specs.Numbers.{AreNumbered};
ghost use Rattle.cal_run.specs.Plain.{plain};
ghost use Rattle.cal_run.specs.Runs.{snapshots};
ghost use Rattle.cal_run.specs.Seeing.{CanBeRead};
ghost use Rattle.cal_script.specs.Valid.{IsRunnable};

use crate::globals::put_globals;
use crate::groups::take_groups;
use cal_context::{Context, Taken, Taker, expand};
use cal_run::{Numbers, take_channel, take_plain_channel};
use cal_script::{Channel, Journal, Script};
use cal_value::{OutOfMemory, Records};
use std::alloc::Global;

/// Hands the rows of a run to a taker: of each channel its trace, then its groups in their order.
/// It takes time in the lines for each channel, and n log n comparisons of groups, but not in the
/// depth of paths, groups aside. After an `Err` nothing is said of the taker.
pub fn take_run<T: Taker>(
    alloc: Global,
    script: &Script,
    journal: &Journal,
    numbers: &Numbers,
    context: &mut Context,
    taker: &mut T,
) -> Result<(), OutOfMemory>
    requires runnable { IsRunnable script.now }
    requires read { CanBeRead script.now journal.now }
    requires numbered { AreNumbered context.old script.now numbers.now }
    ensures taken { OnOk result (TakesMore
        (T.has_taken taker.old context.old)
        (T.has_taken taker.new context.new)
        (run_rows script.now journal.now)) }
    ensures grows { Grows context.old context.new }
    ensures about { OnOk result (T.about taker.new ≡ T.about taker.old) }
{
    for channel in script.channels.as_slice() {
        take_rows_of(
            alloc,
            script,
            Some(journal),
            channel,
            numbers,
            context,
            taker,
        )?;
    }
    Ok(())
}

/// Hands the rows of the run of the threads one after another to a taker, as `take_run` does by the
/// plain journal, of which nothing is kept. Gives how many lines were refused, exactly where some
/// channel has trace or aggregates.
pub fn take_plain_run<T: Taker>(
    alloc: Global,
    script: &Script,
    numbers: &Numbers,
    context: &mut Context,
    taker: &mut T,
) -> Result<Option<u64>, OutOfMemory>
    requires runnable { IsRunnable script.now }
    requires numbered { AreNumbered context.old script.now numbers.now }
    ensures taken { OnOk result (TakesMore
        (T.has_taken taker.old context.old)
        (T.has_taken taker.new context.new)
        (run_rows script.now (plain script.now))) }
    ensures refused { IfOk result (CountsRefused script.now) }
    ensures counted { IfOk result (IsCounted script.now) }
    ensures grows { Grows context.old context.new }
    ensures about { OnOk result (T.about taker.new ≡ T.about taker.old) }
{
    let mut refused = None;
    for channel in script.channels.as_slice() {
        let counted = take_rows_of(alloc, script, None, channel, numbers, context, taker)?;
        refused = either(script, refused, counted);
    }
    Ok(refused)
}

/// One of two counts of the lines that are refused, if there is one.
fn either(script: &Script, first: Option<u64>, second: Option<u64>) -> Option<u64>
    requires first { CountsRefused script.now first }
    requires second { CountsRefused script.now second }
    ensures refused { CountsRefused script.now result }
    ensures counted { is_some result ≡ (is_some first || is_some second) }
{
    let _ = script;
    match second {
        Some(counted) => Some(counted),
        None => first,
    }
}

/// Hands the rows of a channel to a taker. Without a journal it gives how many lines were refused,
/// where the channel has trace or aggregates.
fn take_rows_of<T: Taker>(
    alloc: Global,
    script: &Script,
    journal: Option<&Journal>,
    channel: &Channel,
    numbers: &Numbers,
    context: &mut Context,
    taker: &mut T,
) -> Result<Option<u64>, OutOfMemory>
    requires runnable { IsRunnable script.now }
    requires read { IfSome journal (λ journal. CanBeRead script.now journal.now) }
    requires numbered { AreNumbered context.old script.now numbers.now }
    ensures taken { OnOk result (TakesMore
        (T.has_taken taker.old context.old)
        (T.has_taken taker.new context.new)
        (channel_rows script.now (told script.now (option_copied journal.entry)) channel.now)) }
    ensures refused { IfOk result (CountsRefused script.now) }
    ensures counted { IfNone journal.entry
        (IfOk result (λ counted. is_some counted ≡ is_kept channel.now)) }
    ensures grows { Grows context.old context.new }
    ensures about { OnOk result (T.about taker.new ≡ T.about taker.old) }
{
    let traced = take_trace(alloc, script, journal, channel, numbers, context, taker)?;
    let grouped = take_groups(alloc, script, journal, channel, numbers, context, taker)?;
    Ok(either(script, traced, grouped))
}

/// Hands the snapshots of a channel with trace to a taker.
fn take_trace<T: Taker>(
    alloc: Global,
    script: &Script,
    journal: Option<&Journal>,
    channel: &Channel,
    numbers: &Numbers,
    context: &mut Context,
    taker: &mut T,
) -> Result<Option<u64>, OutOfMemory>
    requires runnable { IsRunnable script.now }
    requires read { IfSome journal (λ journal. CanBeRead script.now journal.now) }
    requires numbered { AreNumbered context.old script.now numbers.now }
    ensures taken { OnOk result (TakesMore
        (T.has_taken taker.old context.old)
        (T.has_taken taker.new context.new)
        (traced script.now (told script.now (option_copied journal.entry)) channel.now)) }
    ensures refused { IfOk result (CountsRefused script.now) }
    ensures counted { IfNone journal.entry
        (IfOk result (λ counted. is_some counted ≡ channel.now.trace)) }
    ensures grows { Grows context.old context.new }
    ensures about { OnOk result (T.about taker.new ≡ T.about taker.old) }
{
    if !channel.trace {
        return Ok(None);
    }
    let counted = take_snapshots(alloc, script, journal, channel, numbers, context, taker)?;
    Ok(counted)
}

/// Hands the snapshots of a channel to a taker. Without a journal it gives how many lines were
/// refused.
pub(crate) fn take_snapshots<T: Taker>(
    alloc: Global,
    script: &Script,
    journal: Option<&Journal>,
    channel: &Channel,
    numbers: &Numbers,
    context: &mut Context,
    taker: &mut T,
) -> Result<Option<u64>, OutOfMemory>
    requires runnable { IsRunnable script.now }
    requires read { IfSome journal (λ journal. CanBeRead script.now journal.now) }
    requires numbered { AreNumbered context.old script.now numbers.now }
    ensures taken { OnOk result (TakesMore
        (T.has_taken taker.old context.old)
        (T.has_taken taker.new context.new)
        (snapshots script.now (told script.now (option_copied journal.entry)) channel.now)) }
    ensures refused { IfOk result (CountsRefused script.now) }
    ensures counted { IfNone journal.entry (IfOk result (λ counted. is_some counted ≡ true)) }
    ensures grows { Grows context.old context.new }
    ensures about { OnOk result (T.about taker.new ≡ T.about taker.old) }
{
    match journal {
        Some(journal) => {
            take_channel(alloc, script, journal, channel, numbers, context, taker)?;
            Ok(None)
        }
        None => {
            let refused = take_plain_channel(alloc, script, channel, numbers, context, taker)?;
            Ok(Some(refused))
        }
    }
}

/// The records of a run, with entries of their own. It takes time in the lengths of all paths.
pub fn run_records(
    alloc: Global,
    script: &Script,
    journal: &Journal,
) -> Result<Records, OutOfMemory>
    requires runnable { IsRunnable script.now }
    requires read { CanBeRead script.now journal.now }
    ensures { IfOk result (λ records. records ≡ records_of script.now journal.now) }
{
    let mut context = Context::new(alloc);
    run_records_in(alloc, script, journal, &mut context)
}

/// The same in a context without attributes.
fn run_records_in(
    alloc: Global,
    script: &Script,
    journal: &Journal,
    context: &mut Context,
) -> Result<Records, OutOfMemory>
    requires runnable { IsRunnable script.now }
    requires read { CanBeRead script.now journal.now }
    requires none { context.old.attributes ≡ [] }
    ensures { IfOk result (λ records. records ≡ records_of script.now journal.now) }
{
    let numbers = Numbers::of(alloc, script, context)?;
    let mut taken = Taken::new(alloc);
    take_run(alloc, script, journal, &numbers, context, &mut taken)?;
    let globals = put_globals(alloc, script.globals.as_slice(), context)?;
    Ok(Records {
        rows: taken.into_rows(),
        globals: expand(alloc, context, &globals)?,
    })
}
