ghost use Rattle.std.specs.Prelude.{◌≡◌, ◌+◌, ◌<◌, if◌then◌else◌};
ghost use Rattle.cal_run.specs.Lines.{is_process_line};
ghost use Rattle.cal_run.specs.Noting.{noted, noted_as, reading_with, seen_with};
ghost use Rattle.cal_run.specs.Steps.{reply_to_line};

use crate::lines::is_process_line;
use crate::noting::Plain;
use crate::placed::PlacedProcess;
use crate::steps::{is_accepted, is_read, is_taken, reply_to_line};
use cal_script::{Line, LineNote, Reply, Script};

/// The reply to a line, if the script knows it.
pub(crate) fn found_reply(
    script: &Script,
    line: Line,
    thread: &Plain,
    process: &PlacedProcess,
) -> Option<Reply>
    ensures { result ≡ reply_to_line script.now (if is_process_line script.now line
        then process.now.board else thread.now.board) line }
{
    if is_process_line(script, line) {
        reply_to_line(script, line, &process.board)
    } else {
        reply_to_line(script, line, &thread.board)
    }
}

/// The note of a line with this reply.
pub(crate) fn note_of(
    script: &Script,
    line: Line,
    reply: Option<Reply>,
    thread: &Plain,
    process: &PlacedProcess,
) -> LineNote
    requires { process.now.count < 18446744073709551615 }
    ensures { result ≡ noted script.now process.now.count thread.now.seen thread.now.clock line
        reply }
{
    let shared = is_process_line(script, line);
    let before = process.count as u64;
    let reading = reading_with(script, line, reply, thread.clock);
    note_behind(script, line, shared, reply, before, thread.seen, reading)
}

/// The note of a line with this reply and reading, of a thread that has seen so much and stands
/// behind so many operations.
#[inline(always)]
pub(crate) fn note_behind(
    script: &Script,
    line: Line,
    shared: bool,
    reply: Option<Reply>,
    before: u64,
    seen: u64,
    reading: Option<u64>,
) -> LineNote
    requires kind { shared ≡ is_process_line script.now line }
    requires few { before < 18446744073709551615 }
    ensures { result ≡ noted_as script.now before seen line reply reading }
{
    LineNote {
        reply: reply.unwrap_or(Reply::Merged),
        seen: seen_with(script, line, shared, reply, before, seen),
        reading,
    }
}

/// How many operations a line with this reply has seen, behind so many.
#[inline(always)]
fn seen_with(
    script: &Script,
    line: Line,
    shared: bool,
    reply: Option<Reply>,
    before: u64,
    seen: u64,
) -> u64
    requires kind { shared ≡ is_process_line script.now line }
    requires few { before < 18446744073709551615 }
    ensures { result ≡ seen_with script.now before seen line reply }
{
    if shared {
        before + 1
    } else if before == seen {
        seen
    } else if is_taken(script, line, is_accepted(reply)) {
        before
    } else {
        seen
    }
}

/// The reading of a line with this reply, if it takes one.
#[inline(always)]
fn reading_with(script: &Script, line: Line, reply: Option<Reply>, clock: u64) -> Option<u64>
    ensures { result ≡ reading_with script.now clock line reply }
{
    if is_read(script, line, is_accepted(reply)) {
        Some(clock)
    } else {
        None
    }
}
