ghost use Rattle.std.specs.Prelude.{All};
ghost use Rattle.cal_readable.specs.Seen.{HasShortReadings, IsShortReading};
ghost use Rattle.cal_run.specs.Entries.{HasReadings};

use cal_script::{Journal, LineNote, ThreadNote};

// What the types say of a journal's readings, which reading them shows.

fn see_note(note: LineNote)
    ensures { IsShortReading note }
{
    match note.reading {
        Some(reading) => {
            let _reading = reading;
        }
        None => {}
    }
}

fn see_notes(notes: &[LineNote])
    ensures { All IsShortReading notes.now }
{
    for note in notes {
        see_note(*note);
    }
}

fn see_thread(thread: &ThreadNote)
    ensures { HasShortReadings thread.now }
{
    see_notes(thread.lines.as_slice());
}

fn see_threads(threads: &[ThreadNote])
    ensures { All HasShortReadings threads.now }
{
    for thread in threads {
        see_thread(thread);
    }
}

/// The readings of a journal have 64 bits.
pub(crate) fn see_readings(journal: &Journal)
    ensures { HasReadings journal.now }
{
    see_threads(journal.threads.as_slice());
}
