ghost use Rattle.std.specs.Prelude.{◌≡◌, ◌↔◌, IsTrue};
ghost use Rattle.cal_lawful.specs.Broken.{all_rows};
ghost use Rattle.cal_lawful.specs.Checking.{AreMerged, found_of, noted};
ghost use Rattle.cal_run.specs.Lawful.{IsAnswer, IsFlushReply, IsRead, SeenFixed};
ghost use Rattle.cal_run.specs.Steps.{ThreadState};
ghost use Rattle.cal_script.specs.declared.script.Script as scripts;

use crate::found::Found;
use crate::merged::Merged;
use crate::seen::Spot;
use cal_run::is_process_line;
use cal_script::{Journal, Line, LineNote, Reply, Script};

/// Whether a line that doesn't look has seen what the one before had.
pub(crate) fn is_fixed(
    script: &Script,
    journal: &Journal,
    spot: Spot,
    line: Line,
    note: LineNote,
    found: Found,
) -> bool
    ensures { (state : ThreadState) → found ≡ found_of script.now journal.now.ops line note state
        → (IsTrue result ↔ SeenFixed script.now journal.now (noted spot line note state)) }
{
    let _ = journal;
    is_process_line(script, line) || found.looks || note.seen == spot.before
}

/// Whether a reading is there exactly where one is due, and is the script clock's.
pub(crate) fn is_read(journal: &Journal, due: bool, clock: u64, reading: Option<u64>) -> bool
    ensures { (script : scripts.Script)
        → (IsTrue result ↔ IsRead script journal.now due clock reading) }
{
    match reading {
        None => !due,
        Some(n) => due && (journal.real || n == clock),
    }
}

/// Whether the reply to a line is the one that is found, or one that a flush may get.
pub(crate) fn is_answered(
    script: &Script,
    journal: &Journal,
    merged: &Merged,
    spot: Spot,
    line: Line,
    note: LineNote,
    found: Option<Reply>,
) -> bool
    requires { AreMerged (all_rows script.now journal.now) merged.now.marks.items }
    ensures { (state : ThreadState)
        → (IsTrue result ↔ IsAnswer script.now journal.now (noted spot line note state) found) }
{
    match found {
        Some(reply) => note.reply == reply,
        None => is_flush_reply(script, journal, merged, spot.thread, line, note.reply),
    }
}

fn is_flush_reply(
    script: &Script,
    journal: &Journal,
    merged: &Merged,
    thread: usize,
    line: Line,
    reply: Reply,
) -> bool
    requires { AreMerged (all_rows script.now journal.now) merged.now.marks.items }
    ensures { IsTrue result ↔ IsFlushReply script.now journal.now thread line reply }
{
    let _ = script;
    let _ = journal;
    let Line::Flush { channel } = line else {
        return false;
    };
    match reply {
        Reply::Merged => true,
        Reply::Busy { holder } => {
            holder as usize != thread && merged.has(holder as usize, channel as usize)
        }
        _ => false,
    }
}
