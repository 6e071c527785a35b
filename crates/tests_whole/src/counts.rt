//! What is counted of a run by its journal alone.
ghost use Rattle.std.specs.Prelude.{◌≡◌, []};
ghost use Rattle.cal_run.specs.Lawful.{Lawful};
ghost use Rattle.cal_script.specs.Valid.{IsRunnable};

use crate::scripts::{journal_of, runnable};
use cal_context::Context;
use cal_counts::{count_nodes, count_snapshots, count_traced, run_rows_law};
use cal_lawful::check_journal;
use cal_run::{Numbers, plain_journal, plain_journal_law};
use cal_script::{Journal, JournalText, Script};
use cal_seeds::Seeds;
use cal_value::OutOfMemory;
use std::alloc::Global;
use std::test::Fail;

/// A script, and what a run of it has.
struct Row {
    script: &'static str,
    counts: Counts,
}

/// How many nodes, snapshots, and snapshots in traces a run has.
#[derive(Clone, Copy, Debug, PartialEq, Eq)]
struct Counts {
    nodes: u64,
    snapshots: u64,
    traced: u64,
}

/// Two threads that share a phase.
const SHARED: &str = "attribute phase string 268\nchannel t trace\nthread\nbegin phase init\n\
    snapshot\nthread\nend phase\nsnapshot\n";

/// The second thread ends the phase behind the first thread's lines.
const IN_TURN: &str = "journal script\nop 0 1\nop 1 1\nstart 0 -\nline 0 1 done 1 -\n\
    line 0 2 done 1 -\nstart 1 -\nline 1 1 done 2 -\nline 1 2 done 2 -\nend\n";

/// It ends the phase before it begins, which is refused.
const TOO_EARLY: &str = "journal script\nop 1 1\nop 0 1\nstart 0 -\nline 0 1 done 2 -\n\
    line 0 2 done 2 -\nstart 1 -\nline 1 1 notopen 1 -\nline 1 2 done 1 -\nend\n";

/// Scripts with their counts by the plain journal: nothing; every event a snapshot in a trace and
/// in a profile, one line refused, and a path that comes twice; and threads with one path each.
const ROWS: [Row; 3] = [
    Row {
        script: "",
        counts: Counts {
            nodes: 0,
            snapshots: 0,
            traced: 0,
        },
    },
    Row {
        script: "attribute function string 276\nattribute loop string 276\n\
            attribute iteration int 21\nchannel t event,trace\nchannel p event,aggregate\n\
            channel q trace,aggregate\nthread\nbegin function main\nend loop\n\
            begin loop steps\nset iteration 1\nend loop\nbegin loop steps\nsnapshot\n",
        counts: Counts {
            nodes: 2,
            snapshots: 13,
            traced: 7,
        },
    },
    Row {
        script: "attribute function string 276\nchannel t trace\nthread\nbegin function f\n\
            snapshot\nthread\nbegin function g\nsnapshot\nthread\nbegin function f\nsnapshot\n",
        counts: Counts {
            nodes: 2,
            snapshots: 3,
            traced: 3,
        },
    },
];

fn rows() -> &'static [Row] {
    &ROWS
}

/// The nodes of a run, put into a context that has none.
fn nodes_in(
    alloc: Global,
    script: &Script,
    journal: &Journal,
    context: &mut Context,
) -> Result<u64, OutOfMemory>
    requires runnable { IsRunnable script.now }
    requires none { context.old.attributes ≡ [] }
{
    let numbers = Numbers::of(alloc, script, context)?;
    count_nodes(alloc, script, journal, &numbers, context)
}

/// What a run by a journal has.
fn counts_of(alloc: Global, script: &Script, journal: &Journal) -> Option<Counts>
    requires runnable { IsRunnable script.now }
    requires lawful { Lawful script.now journal.now }
{
    let mut context = Context::new(alloc);
    let nodes = nodes_in(alloc, script, journal, &mut context);
    drop(context);
    Some(Counts {
        nodes: nodes.ok()?,
        snapshots: count_snapshots(script, journal),
        traced: count_traced(script, journal),
    })
}

/// What the run of a script's threads one after another has.
fn plain_counts(alloc: Global, script: &Script) -> Option<Counts>
    requires { IsRunnable script.now }
{
    plain_journal_law();
    run_rows_law();
    let journal = plain_journal(alloc, script).ok()?;
    let counts = counts_of(alloc, script, &journal);
    drop(journal);
    counts
}

/// What a run by a journal's text has, if that is a lawful one of the script.
fn lawful_counts(alloc: Global, script: &Script, text: &JournalText) -> Option<Counts>
    requires { IsRunnable script.now }
{
    match check_journal(alloc, Seeds::fixed(), script, text) {
        Ok(()) => counts_of(alloc, script, &text.journal),
        Err(_) => None,
    }
}

/// Whether the script that two threads share has these counts by a journal.
fn has_shared(alloc: Global, text: &str, counts: Counts) -> Result<bool, Fail> {
    let script = runnable(alloc, SHARED)?;
    let journal = journal_of(alloc, text);
    let found = match &journal {
        Some(journal) => lawful_counts(alloc, &script, journal),
        None => None,
    };
    drop(journal);
    drop(script);
    Ok(found == Some(counts))
}

/// Whether a row's script has its counts.
fn holds(alloc: Global, row: &Row) -> Result<bool, Fail> {
    let script = runnable(alloc, row.script)?;
    let counts = plain_counts(alloc, &script);
    drop(script);
    Ok(counts == Some(row.counts))
}

#[test]
fn runs_of_threads_one_after_another_are_counted(rt: HostRuntime) -> Result<(), Fail> {
    for (place, row) in rows().iter().enumerate() {
        let held = holds(rt.alloc(), row)?;
        assert!(rt; held, "row {place}");
    }
    Ok(())
}

/// A phase that is begun is one node, also where its end came too early.
#[test]
fn both_journals_of_a_script_have_one_node(rt: HostRuntime) -> Result<(), Fail> {
    let counts = Counts {
        nodes: 1,
        snapshots: 2,
        traced: 2,
    };
    let in_turn = has_shared(rt.alloc(), IN_TURN, counts)?;
    assert!(rt; in_turn);
    let too_early = has_shared(rt.alloc(), TOO_EARLY, counts)?;
    assert!(rt; too_early);
    Ok(())
}
