//! A run in threads, to its records and its counts.
ghost use Rattle.std.specs.Prelude.{◌≡◌, ◌≤◌, IfOk, length};
ghost use Rattle.cal_counts.specs.Counts.{group_count, snapshot_count};
ghost use Rattle.cal_ran.specs.Ended.{IsEnded};
ghost use Rattle.cal_ran.specs.Told.{HaveToldAll};
ghost use Rattle.cal_records.specs.Records.{records_of};
ghost use Rattle.cal_whole.specs.Counts.{HasCounts};
ghost use Rattle.cal_run.specs.Lawful.{Lawful};
ghost use Rattle.cal_run.specs.Paths.{nodes};
ghost use Rattle.cal_script.specs.Reading.{IsValidScript};
ghost use Rattle.cal_script.specs.Valid.{IsRunnable};

use cal_base::{Clock, Gate};
use cal_context::{Context, Taken, expand};
use cal_counts::{count_nodes, count_snapshots, count_traced, run_rows_law};
use cal_ran::{EndedRun, run_script};
use cal_records::put_globals;
use cal_run::{Numbers, Prober};
use cal_script::{Journal, Script};
use cal_seeds::Seeds;
use cal_valid::valid_script_law;
use cal_value::{OutOfMemory, Records};
use std::alloc::Global;
use std::hash::RandomState;
use std::thread::Threads;

/// What a run leaves: its journal; its records, with entries of their own; how many nodes the
/// context tree has, which are the different paths that boards held; how many snapshots all
/// channels took; and how many records of groups there are.
#[derive(Drop)]
pub struct Ran {
    pub journal: Journal,
    pub records: Records,
    pub nodes: u64,
    pub snapshots: u64,
    pub groups: u64,
}

/// How many nodes, snapshots and records of groups a run has.
#[derive(Clone, Copy, Debug, PartialEq, Eq)]
struct Counts {
    nodes: u64,
    snapshots: u64,
    groups: u64,
}

/// Runs a script as `replay_text` does, and gives its records and how large it was. It takes time
/// in the lengths of all paths beside that of the run. An `Err` is want of memory: some lines may
/// have run, and clocks may be lost.
pub fn replay<R: Threads + Sync, P: Prober + Sync, K: Clock + Send + Drop, G: Gate + Sync>(
    rt: &R,
    alloc: Global,
    hashers: RandomState,
    script: &Script,
    real: bool,
    clocks: &mut Vec<K>,
    gate: &G,
    probes: &P,
) -> Result<Ran, OutOfMemory>
    requires script { IsValidScript script.now }
    requires clocks { length script.now.threads ≤ length clocks.old.items }
    ensures lawful { IfOk result (λ r. Lawful script.now r.journal) }
    ensures real { IfOk result (λ r. r.journal.real ≡ real) }
    ensures records { IfOk result (λ r. r.records ≡ records_of script.now r.journal) }
    ensures nodes { IfOk result (λ r. r.nodes ≡ nodes script.now r.journal) }
    ensures snapshots { IfOk result (λ r. r.snapshots ≡ snapshot_count script.now r.journal) }
    ensures groups { IfOk result (λ r. r.groups ≡ group_count script.now r.journal) }
    ensures told { IfOk result
        (λ r. HaveToldAll K.given r.journal clocks.old.items clocks.new.items) }
{
    let ended = run_script(rt, alloc, hashers, script, real, clocks, gate, probes)?;
    whole_run(alloc, script, ended)
}

/// The records of a run that has ended, its journal and its counts.
fn whole_run(alloc: Global, script: &Script, mut ended: EndedRun<'_>) -> Result<Ran, OutOfMemory>
    requires script { IsValidScript script.now }
    requires ended { IsEnded script.now ended }
    ensures journal { IfOk result (λ r. r.journal ≡ ended.entry.journal) }
    ensures records { IfOk result
        (λ r. r.records ≡ records_of script.now ended.entry.journal) }
    ensures nodes { IfOk result (λ r. r.nodes ≡ nodes script.now ended.entry.journal) }
    ensures snapshots { IfOk result
        (λ r. r.snapshots ≡ snapshot_count script.now ended.entry.journal) }
    ensures groups { IfOk result (λ r. r.groups ≡ group_count script.now ended.entry.journal) }
{
    match ended_records(alloc, script, &mut ended) {
        Ok((records, counts)) => Ok(Ran {
            journal: ended.journal,
            records,
            nodes: counts.nodes,
            snapshots: counts.snapshots,
            groups: counts.groups,
        }),
        Err(error) => Err(error),
    }
}

/// The records of a run that has ended, and its counts.
fn ended_records(
    alloc: Global,
    script: &Script,
    ended: &mut EndedRun<'_>,
) -> Result<(Records, Counts), OutOfMemory>
    requires script { IsValidScript script.now }
    requires ended { IsEnded script.now ended.old }
    ensures records { IfOk result (λ r. r.0 ≡ records_of script.now ended.old.journal) }
    ensures counts { IfOk result (λ r. HasCounts script.now ended.old.journal r.1) }
    ensures journal { ended.new.journal ≡ ended.old.journal }
{
    valid_script_law();
    let records = expanded(alloc, script, ended)?;
    let seeds = ended.context.seeds();
    match count(
        alloc,
        seeds,
        script,
        &ended.journal,
        records.rows.len() as u64,
    ) {
        Ok(counts) => Ok((records, counts)),
        Err(error) => Err(error),
    }
}

/// The records of a run that has ended, with entries of their own.
fn expanded(
    alloc: Global,
    script: &Script,
    ended: &mut EndedRun<'_>,
) -> Result<Records, OutOfMemory>
    requires { IsEnded script.now ended.old }
    ensures records { IfOk result
        (λ records. records ≡ records_of script.now ended.old.journal) }
    ensures journal { ended.new.journal ≡ ended.old.journal }
{
    let mut taken = Taken::new(alloc);
    ended.take_rows(alloc, &mut taken)?;
    let globals = put_globals(alloc, script.globals.as_slice(), &mut ended.context)?;
    Ok(Records {
        rows: taken.into_rows(),
        globals: expand(alloc, &ended.context, &globals)?,
    })
}

/// The counts of a run by its journal, whose records have so many rows.
fn count(
    alloc: Global,
    seeds: Seeds,
    script: &Script,
    journal: &Journal,
    rows: u64,
) -> Result<Counts, OutOfMemory>
    requires runnable { IsRunnable script.now }
    requires lawful { Lawful script.now journal.now }
    requires rows { rows ≡ length (records_of script.now journal.now).rows }
    ensures { IfOk result (HasCounts script.now journal.now) }
{
    run_rows_law();
    let mut context = Context::seeded(alloc, seeds);
    let numbers = Numbers::of(alloc, script, &mut context)?;
    let nodes = count_nodes(alloc, script, journal, &numbers, &mut context)?;
    Ok(Counts {
        nodes,
        snapshots: count_snapshots(script, journal),
        groups: rows - count_traced(script, journal),
    })
}
