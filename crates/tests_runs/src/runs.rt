ghost use Rattle.std.specs.Prelude.{◌≡◌, [], IfOk};
ghost use Rattle.cal_script.specs.Reading.{Means};
ghost use Rattle.cal_script.specs.Valid.{IsRunnable};

use cal_context::Context;
use cal_journal::{JournalKind, read_both};
use cal_lawful::{CoreEnd, run_serial};
use cal_run::{Numbers, PlainCounts, count_plain};
use cal_script::{JournalText, Script, read_script};
use cal_seeds::Seeds;
use cal_summary::summarize;
use cal_valid::valid_script_law;
use cal_value::OutOfMemory;
use cal_write::cali_text;
use std::alloc::Global;
use std::test::Fail;

// two threads that share a phase
const SHARED: &str = "attribute phase string 268\nchannel t trace\nthread\nbegin phase init\n\
    snapshot\nthread\nend phase\nsnapshot\n";

// the second thread ends the phase behind the first thread's lines
const IN_TURN: &str = "journal script\nop 0 1\nop 1 1\nstart 0 -\nline 0 1 done 1 -\n\
    line 0 2 done 1 -\nstart 1 -\nline 1 1 done 2 -\nline 1 2 done 2 -\nend\n";

// it ends the phase before it begins, which is refused
const TOO_EARLY: &str = "journal script\nop 1 1\nop 0 1\nstart 0 -\nline 0 1 done 2 -\n\
    line 0 2 done 2 -\nstart 1 -\nline 1 1 notopen 1 -\nline 1 2 done 1 -\nend\n";

// the first thread's snapshot forgets what its line before had seen
const FORGETS: &str = "journal script\nop 0 1\nop 1 1\nstart 0 -\nline 0 1 done 1 -\n\
    line 0 2 done 0 -\nstart 1 -\nline 1 1 done 2 -\nline 1 2 done 2 -\nend\n";

// the phase in the first snapshot, nothing in the second
const TRACE: &str = "__rec=node,id=12,attr=10,data=268,parent=3\n\
    __rec=node,id=13,attr=8,data=phase,parent=12\n__rec=node,id=14,attr=13,data=init\n\
    __rec=ctx,ref=14\n__rec=ctx\n";

// two functions, one in the other, on two channels, of which one keeps groups
const NESTED: &str = "attribute function string 276\nchannel t trace\nchannel p aggregate\nthread\n\
    begin function main\nsnapshot\nbegin function solve\nsnapshot\nsnapshot\nend function\n\
    end function\n";

/// The script that a text means.
fn script_of(alloc: Global, text: &str) -> Result<Script, Fail>
    ensures { IfOk result (Means text.now) }
{
    let script = read_script(alloc, text.as_bytes())?;
    Ok(script)
}

/// A script that can be run.
fn runnable(alloc: Global, text: &str) -> Result<Script, Fail>
    ensures { IfOk result IsRunnable }
{
    valid_script_law();
    let script = script_of(alloc, text)?;
    Ok(script)
}

/// A journal that stands behind nothing but an empty script.
fn journal_of(alloc: Global, text: &str) -> Option<JournalText> {
    match read_both(alloc, text.as_bytes()) {
        Ok((_, journal)) => journal,
        Err(_) => None,
    }
}

/// Whether a run by a journal gives the trace.
fn gives_trace(alloc: Global, script: &Script, journal: &JournalText) -> Result<bool, CoreEnd>
    requires { IsRunnable script.now }
{
    let records = run_serial(alloc, script, journal)?;
    let text = cali_text(alloc, &records);
    drop(records);
    Ok(text?.as_str() == TRACE)
}

/// The same of a journal's text.
fn is_traced(alloc: Global, script: &Script, text: &str) -> bool
    requires { IsRunnable script.now }
{
    match journal_of(alloc, text) {
        Some(journal) => gives_trace(alloc, script, &journal).unwrap_or(false),
        None => false,
    }
}

#[test]
fn a_run_is_read_off_its_journal(rt: HostRuntime) -> Result<(), Fail> {
    let script = runnable(rt.alloc(), SHARED)?;
    let in_turn = is_traced(rt.alloc(), &script, IN_TURN);
    let too_early = is_traced(rt.alloc(), &script, TOO_EARLY);
    drop(script);
    assert!(rt; in_turn && too_early);
    Ok(())
}

/// The fault of a run by a journal, if it has one.
fn fault_of(alloc: Global, script: &Script, text: &str) -> Option<(u64, JournalKind)>
    requires { IsRunnable script.now }
{
    let journal = journal_of(alloc, text)?;
    let run = run_serial(alloc, script, &journal);
    drop(journal);
    match run {
        Err(CoreEnd::JournalFault { line, kind }) => Some((line, kind)),
        _ => None,
    }
}

#[test]
fn a_broken_rule_is_told_with_its_line(rt: HostRuntime) -> Result<(), Fail> {
    let script = runnable(rt.alloc(), SHARED)?;
    let fault = fault_of(rt.alloc(), &script, FORGETS);
    drop(script);
    assert!(rt; fault == Some((6, JournalKind::SeenFalls)));
    Ok(())
}

/// How large the plain run is, in a context without attributes.
fn counted(
    alloc: Global,
    script: &Script,
    context: &mut Context,
) -> Result<PlainCounts, OutOfMemory>
    requires runnable { IsRunnable script.now }
    requires none { context.old.attributes ≡ [] }
{
    let numbers = Numbers::of(alloc, script, context)?;
    count_plain(alloc, script, &numbers, context)
}

#[test]
fn a_plain_run_is_counted(rt: HostRuntime) -> Result<(), Fail> {
    let script = runnable(rt.alloc(), NESTED)?;
    let mut context = Context::new(rt.alloc());
    let counts = counted(rt.alloc(), &script, &mut context);
    drop(context);
    drop(script);
    let counts = counts?;
    assert!(rt; counts.nodes == 2 && counts.in_all == 6 && counts.traced == 3);
    Ok(())
}

#[test]
fn a_plain_run_is_summed_up(rt: HostRuntime) -> Result<(), Fail> {
    let script = runnable(rt.alloc(), NESTED)?;
    let summary = summarize(&rt, rt.alloc(), Seeds::fixed(), &script);
    drop(script);
    let summary = summary?;
    assert!(rt; summary.threads == 1 && summary.lines == 7 && summary.nodes == 2);
    assert!(rt; summary.snapshots == 6 && summary.groups == 2 && summary.bytes == 374);
    Ok(())
}
