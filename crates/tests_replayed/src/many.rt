//! Many threads side by side, with shared paths, process lines and flushes: whatever the schedule was,
//! the journal is lawful, and the run of the journal alone has the same text.

ghost use Rattle.cal_script.specs.Reading.{IsValidScript};
ghost use Rattle.cal_script.specs.Valid.{IsRunnable};

use crate::runs::{run, script_of};
use cal_base::OpenGate;
use cal_journal::{print_journal, read_both};
use cal_lawful::run_serial;
use cal_script::{Journal, JournalText, Script};
use cal_valid::valid_script_law;
use cal_value::{OutOfMemory, Text};
use cal_write::cali_text;
use std::alloc::Global;
use std::hash::RandomState;
use std::test::Fail;
use std::thread::Threads;

/// What a script of any number of threads declares.
const HEADER: &str = "attribute phase string 268\nattribute function string 276\n\
    channel t event,timer,trace\nchannel p aggregate\nkey phase\n";

/// The lines of each of its threads.
const THREAD: &str = "thread\nbegin phase one\nbegin function main\nsnapshot\nflush p\n\
    end phase\nset phase two\ntick 3\nend function\nsnapshot\nflush p\n";

/// A script of so many threads, all of the same lines.
fn text_of(alloc: Global, threads: u32) -> Result<Text, OutOfMemory> {
    let mut text = Text::from_str(alloc, HEADER)?;
    for _thread in 0..threads {
        text.push_str(THREAD)?;
    }
    Ok(text)
}

/// A journal with the lines on which it stands.
fn read_journal(alloc: Global, text: &str) -> Option<JournalText> {
    match read_both(alloc, text.as_bytes()) {
        Ok((_, journal)) => journal,
        Err(_) => None,
    }
}

/// The text of the run by a journal's text, if that is a lawful one of the script.
fn serial_text(alloc: Global, script: &Script, text: &str) -> Option<Text>
    requires { IsRunnable script.now }
{
    let journal = read_journal(alloc, text)?;
    let records = run_serial(alloc, script, &journal);
    drop(journal);
    match records {
        Ok(records) => cali_text(alloc, &records).ok(),
        Err(_) => None,
    }
}

/// Whether the run by a journal alone has this text.
fn is_text_of(alloc: Global, script: &Script, journal: &Journal, text: &str) -> bool
    requires { IsRunnable script.now }
{
    let Ok(printed) = print_journal(alloc, journal) else {
        return false;
    };
    match serial_text(alloc, script, printed.as_str()) {
        Some(serial) => serial.as_str() == text,
        None => false,
    }
}

/// Whether a run in threads has the text of its journal.
fn agrees<R: Threads + Sync>(rt: &R, alloc: Global, hashers: RandomState, script: &Script) -> bool
    requires valid { IsValidScript script.now }
    requires runnable { IsRunnable script.now }
{
    match run(rt, alloc, hashers, script, &OpenGate) {
        Some(replayed) => is_text_of(alloc, script, &replayed.journal, replayed.text.as_str()),
        None => false,
    }
}

/// Whether each of so many runs does.
fn all_agree<R: Threads + Sync>(
    rt: &R,
    alloc: Global,
    hashers: RandomState,
    script: &Script,
    rounds: u32,
) -> bool
    requires valid { IsValidScript script.now }
    requires runnable { IsRunnable script.now }
{
    let mut all = true;
    for _round in 0..rounds {
        all = all && agrees(rt, alloc, hashers, script);
    }
    all
}

/// Whether so many runs of so many threads do.
fn threads_agree<R: Threads + Sync>(
    rt: &R,
    alloc: Global,
    hashers: RandomState,
    threads: u32,
    rounds: u32,
) -> Result<bool, Fail> {
    valid_script_law();
    let text = text_of(alloc, threads)?;
    let script = script_of(alloc, text.as_str());
    drop(text);
    match script {
        Ok(script) => Ok(all_agree(rt, alloc, hashers, &script, rounds)),
        Err(fail) => Err(fail),
    }
}

#[test]
fn four_threads_have_the_text_of_their_journal_in_a_hundred_runs(
    rt: HostRuntime,
) -> Result<(), Fail> {
    let hashers = RandomState::new(&rt)?;
    let all = threads_agree(&rt, rt.alloc(), hashers, 4, 100)?;
    assert!(rt; all);
    Ok(())
}

#[test]
fn sixteen_threads_have_it_in_a_hundred_runs(rt: HostRuntime) -> Result<(), Fail> {
    let hashers = RandomState::new(&rt)?;
    let all = threads_agree(&rt, rt.alloc(), hashers, 16, 100)?;
    assert!(rt; all);
    Ok(())
}

#[test]
fn sixty_four_threads_have_it_in_a_hundred_runs(rt: HostRuntime) -> Result<(), Fail> {
    let hashers = RandomState::new(&rt)?;
    let all = threads_agree(&rt, rt.alloc(), hashers, 64, 100)?;
    assert!(rt; all);
    Ok(())
}
