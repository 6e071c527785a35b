//! The text of a run in threads: that of its records, or that of its journal.
ghost use Rattle.std.specs.Prelude.{◌≡◌, ◌≤◌, IfOk, OnOk, length};
ghost use Rattle.cal_journal.specs.Printing.{journal_text};
ghost use Rattle.cal_journal.specs.ReadBack.{HoldsJournal};
ghost use Rattle.cal_ran.specs.Told.{HaveToldAll};
ghost use Rattle.cal_run.specs.Lawful.{Lawful};
ghost use Rattle.cal_script.specs.Reading.{IsValidScript};
ghost use Rattle.cal_script.specs.Valid.{IsRunnable};
ghost use Rattle.cal_call.specs.Inputs.{IsTextOf};
ghost use Rattle.cal_call.specs.Refusals.{refused_lines};
ghost use Rattle.cal_call.specs.declared.words.RunText.TheVariants as run_text;

use crate::counting::count_refused;
use crate::made::Made;
use crate::{RunText, UsedJournal};
use cal_base::{Clock, Gate};
use cal_journal::print_journal;
use cal_ran::{EndedRun, run_script};
use cal_replayed::{Replayed, replay_text};
use cal_run::{Prober, lawful_journal_law};
use cal_script::{Journal, Script};
use cal_valid::valid_script_law;
use cal_value::{OutOfMemory, Text};
use std::alloc::Global;
use std::hash::RandomState;
use std::thread::{Threads, join};

/// Runs a script, each of its threads as a thread with the clock at its place, and makes this text
/// of the run. An `Err` is want of memory: some lines may have run, and clocks may be lost.
pub fn run_in_threads<R: Threads + Sync, P: Prober + Sync, K: Clock + Send + Drop, G: Gate + Sync>(
    rt: &R,
    alloc: Global,
    hashers: RandomState,
    script: &Script,
    shown: RunText,
    real: bool,
    clocks: &mut Vec<K>,
    gate: &G,
    probes: &P,
) -> Result<Made, OutOfMemory>
    requires script { IsValidScript script.now }
    requires clocks { 64 ≤ length clocks.old.items }
    ensures lawful { IfOk result (λ made. Lawful script.now made.journal) }
    ensures real { IfOk result (λ made. made.journal.real ≡ real) }
    ensures text { IfOk result (λ made. IsTextOf shown script.now made.journal made.text) }
    ensures refused { IfOk result (λ made. made.refused ≡ refused_lines made.journal) }
    ensures told { IfOk result
        (λ made. HaveToldAll K.given made.journal clocks.old.items clocks.new.items) }
{
    match shown {
        RunText::Records => run_to_records(rt, alloc, hashers, script, real, clocks, gate, probes),
        RunText::Journal => run_to_journal(rt, alloc, hashers, script, real, clocks, gate, probes),
    }
}

/// The same, and makes the text of its records.
fn run_to_records<R: Threads + Sync, P: Prober + Sync, K: Clock + Send + Drop, G: Gate + Sync>(
    rt: &R,
    alloc: Global,
    hashers: RandomState,
    script: &Script,
    real: bool,
    clocks: &mut Vec<K>,
    gate: &G,
    probes: &P,
) -> Result<Made, OutOfMemory>
    requires script { IsValidScript script.now }
    requires clocks { 64 ≤ length clocks.old.items }
    ensures lawful { IfOk result (λ made. Lawful script.now made.journal) }
    ensures real { IfOk result (λ made. made.journal.real ≡ real) }
    ensures text { IfOk result
        (λ made. IsTextOf run_text.Records script.now made.journal made.text) }
    ensures refused { IfOk result (λ made. made.refused ≡ refused_lines made.journal) }
    ensures told { IfOk result
        (λ made. HaveToldAll K.given made.journal clocks.old.items clocks.new.items) }
{
    valid_script_law();
    match replay_text(rt, alloc, hashers, script, real, clocks, gate, probes) {
        Ok(replayed) => Ok(made_of(script, replayed)),
        Err(OutOfMemory) => Err(OutOfMemory),
    }
}

/// What was made of a run in threads: the text of its records, its journal, and how many of its
/// lines were refused.
pub fn made_of(script: &Script, replayed: Replayed) -> Made
    requires runnable { IsRunnable script.now }
    requires lawful { Lawful script.now replayed.journal }
    ensures text { result.text ≡ replayed.text }
    ensures journal { result.journal ≡ replayed.journal }
    ensures refused { result.refused ≡ refused_lines replayed.journal }
{
    let Replayed { text, journal } = replayed;
    Made {
        text,
        refused: lawful_refused(script, &journal),
        journal: UsedJournal::given(journal),
    }
}

/// The same, and makes the text of its journal.
fn run_to_journal<R: Threads + Sync, P: Prober + Sync, K: Clock + Send + Drop, G: Gate + Sync>(
    rt: &R,
    alloc: Global,
    hashers: RandomState,
    script: &Script,
    real: bool,
    clocks: &mut Vec<K>,
    gate: &G,
    probes: &P,
) -> Result<Made, OutOfMemory>
    requires script { IsValidScript script.now }
    requires clocks { 64 ≤ length clocks.old.items }
    ensures lawful { IfOk result (λ made. Lawful script.now made.journal) }
    ensures real { IfOk result (λ made. made.journal.real ≡ real) }
    ensures text { IfOk result
        (λ made. IsTextOf run_text.Journal script.now made.journal made.text) }
    ensures refused { IfOk result (λ made. made.refused ≡ refused_lines made.journal) }
    ensures told { IfOk result
        (λ made. HaveToldAll K.given made.journal clocks.old.items clocks.new.items) }
{
    valid_script_law();
    let ended = run_script(rt, alloc, hashers, script, real, clocks, gate, probes)?;
    let (text, journal) = print_ended(rt, alloc, ended)?;
    Ok(Made {
        text,
        refused: lawful_refused(script, &journal),
        journal: UsedJournal::given(journal),
    })
}

/// The text of the journal of a run that has ended, and the journal. What the run's channels and
/// tables hold is dropped in a thread of its own while the text is made, or in this one where none
/// can be made.
fn print_ended<R: Threads + Sync>(
    rt: &R,
    alloc: Global,
    ended: EndedRun<'_>,
) -> Result<(Text, Journal), OutOfMemory>
    ensures text { IfOk result (λ printed. printed.0 ≡ journal_text printed.1) }
    ensures held { IfOk result (λ printed. HoldsJournal printed.1) }
    ensures journal { IfOk result (λ printed. printed.1 ≡ ended.entry.journal) }
{
    let EndedRun {
        channels,
        tables,
        journal,
        ..
    } = ended;
    let ((), text) = join(
        rt,
        || {
            drop(channels);
            drop(tables);
        },
        || -> Result<Text, OutOfMemory>
            ensures { IfOk result (λ text. text ≡ journal_text journal)
                × OnOk result (HoldsJournal journal) }
        { print_journal(alloc, &journal) },
    );
    match text {
        Ok(text) => Ok((text, journal)),
        Err(error) => Err(error),
    }
}

/// How many lines of a lawful journal were refused.
fn lawful_refused(script: &Script, journal: &Journal) -> u64
    requires runnable { IsRunnable script.now }
    requires lawful { Lawful script.now journal.now }
    ensures { result ≡ refused_lines journal.now }
{
    let _ = script;
    lawful_journal_law();
    count_refused(journal)
}
