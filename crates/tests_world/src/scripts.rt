//! Scripts and journals.
ghost use Rattle.std.specs.Prelude.{IfOk};
ghost use Rattle.cal_script.specs.Reading.{IsValidScript, Means};
ghost use Rattle.cal_script.specs.Valid.{IsRunnable};

use cal_journal::read_both;
use cal_script::{JournalText, Script, read_script};
use cal_valid::valid_script_law;
use cal_value::{OutOfMemory, Text};
use std::alloc::Global;
use std::test::Fail;

/// Two threads that share a phase.
pub(crate) const SHARED: &str = "attribute phase string 268\nchannel t trace\nthread\n\
    begin phase init\nsnapshot\nthread\nend phase\nsnapshot\n";

/// The second thread ends the phase behind the first thread's lines.
pub(crate) const IN_TURN: &str = "journal script\nop 0 1\nop 1 1\nstart 0 -\n\
    line 0 1 done 1 -\nline 0 2 done 1 -\nstart 1 -\nline 1 1 done 2 -\nline 1 2 done 2 -\nend\n";

/// It ends the phase before it begins, which is refused.
pub(crate) const TOO_EARLY: &str = "journal script\nop 1 1\nop 0 1\nstart 0 -\n\
    line 0 1 done 2 -\nline 0 2 done 2 -\nstart 1 -\nline 1 1 notopen 1 -\nline 1 2 done 1 -\n\
    end\n";

/// What threads with one profile declare, in which every event is a snapshot.
const PROFILE: &str = "attribute function string 276\nattribute loop string 276\n\
    attribute iteration int 21\nchannel profile event,timer,aggregate\n";

/// The lines of each of them, which ends with a flush.
const LOOP: &str = "thread\nbegin function main\ntick 10\nbegin loop steps\n\
    set iteration 0\ntick 5\nbegin function solve\ntick 20\nend function\n\
    set iteration 1\ntick 5\nbegin function solve\ntick 30\nend function\n\
    end loop\ntick 2\nend function\nflush profile\n";

/// What threads declare whose phase is the process's.
const PHASES: &str = "attribute phase string 268\nattribute function string 276\n\
    channel t event,timer,trace\nchannel p aggregate\nkey phase\n";

/// The lines of each of them.
const PHASE: &str = "thread\nbegin phase one\nbegin function main\nsnapshot\nflush p\n\
    end phase\nset phase two\ntick 3\nend function\nsnapshot\nflush p\n";

/// So many threads with one profile, all of the same lines.
pub(crate) fn profile_of(alloc: Global, threads: u32) -> Result<Text, OutOfMemory> {
    repeated(alloc, PROFILE, LOOP, threads)
}

/// So many threads that begin and end phases of the process, all of the same lines.
pub(crate) fn phases_of(alloc: Global, threads: u32) -> Result<Text, OutOfMemory> {
    repeated(alloc, PHASES, PHASE, threads)
}

/// A text, and then another one so many times.
fn repeated(alloc: Global, header: &str, thread: &str, threads: u32) -> Result<Text, OutOfMemory> {
    let mut text = Text::from_str(alloc, header)?;
    for _thread in 0..threads {
        text.push_str(thread)?;
    }
    Ok(text)
}

/// The script that a text means.
fn script_of(alloc: Global, text: &str) -> Result<Script, Fail>
    ensures { IfOk result (Means text.now) }
{
    let script = read_script(alloc, text.as_bytes())?;
    Ok(script)
}

/// A valid script, which can be run.
pub(crate) fn runnable(alloc: Global, text: &str) -> Result<Script, Fail>
    ensures valid { IfOk result IsValidScript }
    ensures runnable { IfOk result IsRunnable }
{
    valid_script_law();
    let script = script_of(alloc, text)?;
    Ok(script)
}

/// A journal that stands behind nothing but an empty script.
pub(crate) fn journal_of(alloc: Global, text: &str) -> Option<JournalText> {
    match read_both(alloc, text.as_bytes()) {
        Ok((_, journal)) => journal,
        Err(_) => None,
    }
}
