//! How many snapshots channels take in a run, by the replies that its journal has.
ghost use Rattle.std.specs.Prelude.{◌≡◌, ◌≤◌, count_by, length, sum_by, zip, if◌then◌else◌};
ghost use Rattle.cal_counts.specs.Counts.{snapshot_count, traced_count};
ghost use Rattle.cal_records.specs.Records.{traced};
ghost use Rattle.cal_run.specs.Counting.{is_noted_taken};
ghost use Rattle.cal_run.specs.Lawful.{Lawful};
ghost use Rattle.cal_run.specs.Runs.{snapshots};
ghost use Rattle.cal_script.specs.Valid.{IsRunnable};

use cal_run::{is_accepted, noted_at, takes};
use cal_script::{Channel, Journal, Line, LineNote, Script};

/// How many snapshots all channels take in a run. It takes time in the lines, and for each in the
/// channels, and no memory.
pub fn count_snapshots(script: &Script, journal: &Journal) -> u64
    requires runnable { IsRunnable script.now }
    requires lawful { Lawful script.now journal.now }
    ensures { result ≡ snapshot_count script.now journal.now }
{
    let mut count = 0;
    for channel in script.channels.as_slice() {
        count += count_taken(script, journal, channel);
    }
    count
}

/// How many of them stand in traces. It takes time in the lines, and for each in the channels with
/// trace, and no memory.
pub fn count_traced(script: &Script, journal: &Journal) -> u64
    requires runnable { IsRunnable script.now }
    requires lawful { Lawful script.now journal.now }
    ensures { result ≡ traced_count script.now journal.now }
{
    let mut count = 0;
    for channel in script.channels.as_slice() {
        count += count_in_trace(script, journal, channel);
    }
    count
}

/// How many snapshots stand in the trace of a channel.
fn count_in_trace(script: &Script, journal: &Journal, channel: &Channel) -> u64
    requires few_lines { sum_by length script.now.threads ≤ 1048576 }
    requires lawful { Lawful script.now journal.now }
    ensures counted { result ≡ length (traced script.now journal.now channel.now) }
    ensures few { result ≤ 1048576 }
{
    if channel.trace {
        count_taken(script, journal, channel)
    } else {
        0
    }
}

/// How many snapshots a channel takes in a run.
fn count_taken(script: &Script, journal: &Journal, channel: &Channel) -> u64
    requires few_lines { sum_by length script.now.threads ≤ 1048576 }
    requires lawful { Lawful script.now journal.now }
    ensures counted { result ≡ length (snapshots script.now journal.now channel.now) }
    ensures few { result ≤ 1048576 }
{
    let threads = script.threads.as_slice();
    let notes = journal.threads.as_slice();
    let mut count = 0;
    for number in 0..threads.len() {
        let lines = threads[number].as_slice();
        let noted = notes[number].lines.as_slice();
        count += count_lines(script, channel, lines, noted);
    }
    count
}

/// On how many of a thread's lines a channel takes a snapshot, by the lines' notes.
fn count_lines(script: &Script, channel: &Channel, lines: &[Line], notes: &[LineNote]) -> u64
    requires few { length lines.now ≤ 1048576 }
    requires noted { length notes.now ≡ length lines.now }
    ensures counted { result ≡ count_by (is_noted_taken script.now channel.now)
        (zip lines.now notes.now) }
    ensures few { result ≤ length lines.now }
{
    let mut count = 0;
    for place in 0..lines.len() {
        let (line, note) = noted_at(lines, notes, place);
        count += count_line(script, channel, line, note);
    }
    count
}

/// 1 for a line on which a channel takes a snapshot, and else 0.
fn count_line(script: &Script, channel: &Channel, line: Line, note: LineNote) -> u64
    ensures { result ≡ (if is_noted_taken script.now channel.now (line, note) then 1 else 0) }
{
    if is_accepted(Some(note.reply)) && takes(script, channel, line) {
        1
    } else {
        0
    }
}
