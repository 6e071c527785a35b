//! A run in threads, to its text.
ghost use Rattle.std.specs.Prelude.{◌≡◌, ◌≤◌, [], IfOk, OnOk, length};
ghost use Rattle.cal_context.specs.Snapshots.{IsIn, meaning};
ghost use Rattle.cal_context.specs.Tree.{Grows};
ghost use Rattle.cal_ran.specs.Ended.{IsEnded};
ghost use Rattle.cal_ran.specs.Told.{HaveToldAll};
ghost use Rattle.cal_records.specs.Globals.{Means};
ghost use Rattle.cal_records.specs.Records.{globals_of, records_of, run_rows};
ghost use Rattle.cal_run.specs.Lawful.{Lawful};
ghost use Rattle.cal_script.specs.Reading.{IsValidScript};
ghost use Rattle.cal_write.specs.CanonicalText.{canonical_text};
ghost use Rattle.cal_write.specs.Writer.{EndsWith, HasTaken};

use cal_base::{Clock, Gate};
use cal_context::{Context, Snapshot};
use cal_ran::{EndedRun, run_script};
use cal_records::put_globals;
use cal_run::Prober;
use cal_script::{Journal, Script};
use cal_table::Table;
use cal_value::{OutOfMemory, Text};
use cal_write::Writer;
use std::alloc::Global;
use std::hash::RandomState;
use std::mem::replace;
use std::thread::{Threads, join};

/// The text of the records of a run, and its journal.
#[derive(Drop)]
pub struct Replayed {
    pub text: Text,
    pub journal: Journal,
}

/// Runs a script, each of its threads as a thread with the clock at its place, and makes the text
/// of its records. Readings come off these clocks where `real` says so, else off the script's own.
/// Where a thread can't be made, its lines run in another's. An `Err` is want of memory: some lines
/// may have run, and clocks may be lost.
pub fn replay_text<R: Threads + Sync, P: Prober + Sync, K: Clock + Send + Drop, G: Gate + Sync>(
    rt: &R,
    alloc: Global,
    hashers: RandomState,
    script: &Script,
    real: bool,
    clocks: &mut Vec<K>,
    gate: &G,
    probes: &P,
) -> Result<Replayed, OutOfMemory>
    requires script { IsValidScript script.now }
    requires clocks { length script.now.threads ≤ length clocks.old.items }
    ensures lawful { IfOk result (λ r. Lawful script.now r.journal) }
    ensures real { IfOk result (λ r. r.journal.real ≡ real) }
    ensures text { IfOk result
        (λ r. r.text ≡ canonical_text (records_of script.now r.journal)) }
    ensures told { IfOk result
        (λ r. HaveToldAll K.given r.journal clocks.old.items clocks.new.items) }
{
    let ended = run_script(rt, alloc, hashers, script, real, clocks, gate, probes)?;
    write_ended(rt, alloc, script, ended)
}

/// The text of the records of a run that has ended, and its journal. The run's tables are dropped in
/// a thread of their own while the text is ended, or in this one where none can be made. An `Err` is
/// want of memory, and drops all that the run has left.
pub fn write_ended<R: Threads + Sync>(
    rt: &R,
    alloc: Global,
    script: &Script,
    mut ended: EndedRun<'_>,
) -> Result<Replayed, OutOfMemory>
    requires { IsEnded script.now ended }
    ensures journal { IfOk result (λ r. r.journal ≡ ended.entry.journal) }
    ensures text { IfOk result
        (λ r. r.text ≡ canonical_text (records_of script.now ended.entry.journal)) }
{
    match ended_text(rt, alloc, script, &mut ended) {
        Ok(text) => Ok(Replayed {
            text,
            journal: ended.journal,
        }),
        Err(error) => Err(error),
    }
}

/// The text of the records of a run that has ended, which loses its tables.
fn ended_text<R: Threads + Sync>(
    rt: &R,
    alloc: Global,
    script: &Script,
    ended: &mut EndedRun<'_>,
) -> Result<Text, OutOfMemory>
    requires { IsEnded script.now ended.old }
    ensures text { IfOk result
        (λ text. text ≡ canonical_text (records_of script.now ended.old.journal)) }
    ensures journal { ended.new.journal ≡ ended.old.journal }
{
    let mut writer = Writer::seeded(alloc, ended.context.seeds())?;
    let Ok(globals) = write_rows(alloc, script, ended, &mut writer) else {
        drop(writer);
        return Err(OutOfMemory);
    };
    let tables = replace(&mut ended.tables, Vec::new(alloc));
    finish_beside(rt, tables, writer, &ended.context, &globals)
}

/// The text of what a writer took, and of the globals behind it. Tables are dropped beside that.
fn finish_beside<R: Threads + Sync>(
    rt: &R,
    tables: Vec<Vec<Table>>,
    writer: Writer,
    context: &Context,
    globals: &Snapshot,
) -> Result<Text, OutOfMemory>
    requires { IsIn context.now globals.now }
    ensures { IfOk result
        (EndsWith (HasTaken writer context.now) (meaning context.now globals.now)) }
{
    let ((), text) = join(
        rt,
        || drop(tables),
        || -> Result<Text, OutOfMemory>
            requires { IsIn context.now globals.now }
            ensures { IfOk result (EndsWith (HasTaken writer context.entry.now)
                (meaning context.entry.now globals.entry.now)) }
        { writer.finish(context, globals) },
    );
    text
}

/// Hands the rows of a run that has ended to a writer that has taken none, and puts its globals
/// into the context.
fn write_rows(
    alloc: Global,
    script: &Script,
    ended: &mut EndedRun<'_>,
    writer: &mut Writer,
) -> Result<Snapshot, OutOfMemory>
    requires ended { IsEnded script.now ended.old }
    requires none { HasTaken writer.old ended.old.context [] }
    ensures taken { OnOk result
        (HasTaken writer.new ended.new.context (run_rows script.now ended.old.journal)) }
    ensures globals { IfOk result (λ globals.
        Means ended.new.context globals (globals_of script.now.globals)) }
    ensures journal { ended.new.journal ≡ ended.old.journal }
{
    ended.take_rows(alloc, writer)?;
    put_globals(alloc, script.globals.as_slice(), &mut ended.context)
}
