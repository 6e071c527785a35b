//! Four threads side by side, with shared paths, process lines and flushes: whatever the schedule
//! was, the run of the journal alone has the same records.
ghost use Rattle.cal_script.specs.Reading.{IsValidScript};
ghost use Rattle.cal_script.specs.Valid.{IsRunnable};

use crate::runs::run;
use crate::scripts::{journal_of, runnable};
use cal_journal::print_journal;
use cal_lawful::run_serial;
use cal_script::{Journal, Script};
use cal_value::Records;
use cal_whole::Ran;
use std::alloc::Global;
use std::hash::RandomState;
use std::test::Fail;
use std::thread::Threads;

/// Four threads of the same lines.
const FOUR: &str = "attribute phase string 268\nattribute function string 276\n\
    channel t event,timer,trace\nchannel p aggregate\nkey phase\n\
    thread\nbegin phase one\nbegin function main\nsnapshot\nflush p\n\
    end phase\nset phase two\ntick 3\nend function\nsnapshot\nflush p\n\
    thread\nbegin phase one\nbegin function main\nsnapshot\nflush p\n\
    end phase\nset phase two\ntick 3\nend function\nsnapshot\nflush p\n\
    thread\nbegin phase one\nbegin function main\nsnapshot\nflush p\n\
    end phase\nset phase two\ntick 3\nend function\nsnapshot\nflush p\n\
    thread\nbegin phase one\nbegin function main\nsnapshot\nflush p\n\
    end phase\nset phase two\ntick 3\nend function\nsnapshot\nflush p\n";

/// The records of the run by a journal's text, if that is a lawful one of the script.
fn serial_records(alloc: Global, script: &Script, text: &str) -> Option<Records>
    requires { IsRunnable script.now }
{
    let journal = journal_of(alloc, text)?;
    let records = run_serial(alloc, script, &journal);
    drop(journal);
    records.ok()
}

/// The same of the journal that a run left.
fn records_again(alloc: Global, script: &Script, journal: &Journal) -> Option<Records>
    requires { IsRunnable script.now }
{
    let printed = print_journal(alloc, journal).ok()?;
    let records = serial_records(alloc, script, printed.as_str());
    drop(printed);
    records
}

/// Whether two runs have the same records.
fn same(left: &Records, right: &Records) -> bool {
    left.rows.as_slice() == right.rows.as_slice() && left.globals == right.globals
}

/// Whether a run has the records of its journal.
fn agrees(alloc: Global, script: &Script, ran: &Ran) -> bool
    requires { IsRunnable script.now }
{
    match records_again(alloc, script, &ran.journal) {
        Some(records) => same(&records, &ran.records),
        None => false,
    }
}

/// Whether each of so many runs succeeds and does.
fn all_agree<R: Threads + Sync>(
    rt: &R,
    alloc: Global,
    hashers: RandomState,
    script: &Script,
    rounds: u32,
) -> bool
    requires valid { IsValidScript script.now }
    requires runnable { IsRunnable script.now }
{
    for _round in 0..rounds {
        let agreed = match run(rt, alloc, hashers, script) {
            Some(ran) => agrees(alloc, script, &ran),
            None => false,
        };
        if !agreed {
            return false;
        }
    }
    true
}

#[test]
fn four_threads_have_the_records_of_their_journal_in_ten_runs(rt: HostRuntime) -> Result<(), Fail> {
    let hashers = RandomState::new(&rt)?;
    let script = runnable(rt.alloc(), FOUR)?;
    let all = all_agree(&rt, rt.alloc(), hashers, &script, 10);
    drop(script);
    assert!(rt; all);
    Ok(())
}
