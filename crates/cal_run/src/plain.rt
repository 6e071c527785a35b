ghost use Rattle.std.specs.Prelude.{◌≡◌, IfOk, Some, None, if◌then◌else◌};
ghost use Rattle.cal_run.specs.Lawful.{takes_start_reading};
ghost use Rattle.cal_run.specs.Plain.{plain, plain_history, threads_from};
ghost use Rattle.cal_script.specs.Valid.{IsRunnable};

use crate::noting::note_lines;
use crate::placed::PlacedProcess;
use crate::placing::{lines_of_thread, plain_history};
use crate::steps::takes_start_reading;
use cal_script::{Journal, Placed, Script, ThreadNote};
use cal_value::{OutOfMemory, Seq};
use std::alloc::Global;

/// The journal of the threads one after another, the first one first, with the script clock and
/// each flush merged. It takes time in the lines and, for each, in the channels.
pub fn plain_journal(alloc: Global, script: &Script) -> Result<Journal, OutOfMemory>
    requires runnable { IsRunnable script.now }
    ensures plain { IfOk result (λ journal. journal ≡ plain script.now) }
{
    let ops = plain_history(alloc, script)?;
    let threads = note_threads(alloc, script, ops.as_slice())?;
    Ok(Journal {
        real: false,
        ops,
        threads,
    })
}

/// Notes the threads one after another. The process's board goes on from thread to thread.
fn note_threads(
    alloc: Global,
    script: &Script,
    history: &[Placed],
) -> Result<Seq<ThreadNote>, OutOfMemory>
    requires runnable { IsRunnable script.now }
    requires history { history.now ≡ plain_history script.now }
    ensures { IfOk result (λ notes. notes ≡ threads_from script.now 0 script.now.threads) }
{
    let start = start_reading(script);
    let mut process = PlacedProcess::new(alloc);
    let mut notes = Seq::new(alloc);
    for number in 0..script.threads.len() {
        let lines = lines_of_thread(script, number);
        let noted = note_lines(alloc, script, history, lines, &mut process)?;
        notes.push(ThreadNote {
            start,
            lines: noted,
        })?;
    }
    Ok(notes)
}

/// The reading before a thread's first line.
fn start_reading(script: &Script) -> Option<u64>
    ensures { result ≡ (if takes_start_reading script.now then Some 0 else None) }
{
    if takes_start_reading(script) {
        Some(0)
    } else {
        None
    }
}
