//! The line of a thread that comes next.
ghost use Rattle.std.specs.Prelude.{◌≡◌, ◌≤◌, length, slice_get, zip};
ghost use Rattle.cal_script.specs.Valid.{IsRunnable};
ghost use Rattle.cal_steps.specs.Turning.{seen_at};
ghost use Rattle.cal_world.specs.Progress.{turn_behind};
ghost use Rattle.cal_world.specs.Turns.{turns_from};

use cal_script::{Journal, Line, LineNote, Script};
use cal_value::Seq;
use cal_world::Turn;

/// The line of a thread behind so many.
pub(crate) fn turn_behind(
    script: &Script,
    journal: &Journal,
    thread: u32,
    done: u64,
) -> Option<Turn>
    requires runnable { IsRunnable script.now }
    ensures { result ≡ turn_behind script.now journal.now thread done }
{
    match script.threads.get(thread as usize) {
        None => None,
        Some(lines) => match journal.threads.get(thread as usize) {
            None => None,
            Some(note) => turn_of(thread, lines, &note.lines, done),
        },
    }
}

/// The line of these behind so many, with its note.
fn turn_of(thread: u32, lines: &Seq<Line>, notes: &Seq<LineNote>, done: u64) -> Option<Turn>
    requires few { length lines.now ≤ 1048576 }
    ensures { result ≡ slice_get (turns_from thread 1 0 (zip lines.now notes.now)) done }
{
    let place = done as usize;
    match lines.get(place) {
        None => None,
        Some(line) => match notes.get(place) {
            None => None,
            Some(note) => Some(Turn {
                thread,
                number: place as u32 + 1,
                line: *line,
                note: *note,
                before: seen_before(notes.as_slice(), place),
            }),
        },
    }
}

/// How many operations the line before a place had seen.
fn seen_before(notes: &[LineNote], place: usize) -> u64
    requires { place ≤ length notes.now }
    ensures { result ≡ seen_at 0 notes.now place }
{
    if place == 0 { 0 } else { notes[place - 1].seen }
}
