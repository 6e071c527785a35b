//! Which lines look and which need a node, by what the journal tells of them.
ghost use Rattle.std.specs.Prelude.{◌≡◌};
ghost use Rattle.cal_run.specs.Lines.{is_such, operation_of};
ghost use Rattle.cal_world.specs.Events.{is_looking, is_opening, needs_node, note_at, opens_path};
ghost use Rattle.cal_world.specs.Events.{placed_node};

use cal_run::{Operation, attr_ref, is_accepted, is_process_line, is_taken, line_at, operation_of};
use cal_script::{Journal, Line, LineNote, Placed, Script};
use cal_words::OpCode;

/// Whether a line looks, by its reply.
pub(crate) fn is_looking(script: &Script, line: Line, note: LineNote) -> bool
    ensures { result ≡ is_looking script.now line note }
{
    is_taken(script, line, is_accepted(Some(note.reply))) && !is_process_line(script, line)
}

/// Whether the operation that the journal has at a place of the history needs a node, by the reply
/// to its line.
pub fn placed_node(script: &Script, journal: &Journal, placed: Placed) -> bool
    ensures { result ≡ placed_node script.now journal.now placed }
{
    match line_at(script, placed) {
        None => false,
        Some(line) => match note_at(journal, placed) {
            None => false,
            Some(note) => needs_node(script, line, note),
        },
    }
}

/// The note of a place of the history.
fn note_at(journal: &Journal, placed: Placed) -> Option<LineNote>
    ensures { result ≡ note_at journal.now.threads placed }
{
    match journal.threads.get(placed.thread as usize) {
        None => None,
        Some(note) => note
            .lines
            .get((placed.line as usize).saturating_sub(1))
            .copied(),
    }
}

/// Whether a line was accepted that puts another path into a slot.
pub(crate) fn needs_node(script: &Script, line: Line, note: LineNote) -> bool
    ensures { result ≡ needs_node script.now line note }
{
    is_accepted(Some(note.reply)) && line_opens_path(script, line)
}

fn line_opens_path(script: &Script, line: Line) -> bool
    ensures { result ≡ is_such (opens_path script.now) (operation_of line) }
{
    match operation_of(line) {
        None => false,
        Some(op) => opens_path(script, op),
    }
}

/// Whether an operation puts another path into a slot.
fn opens_path(script: &Script, op: Operation) -> bool
    ensures { result ≡ opens_path script.now op }
{
    is_opening(op.code) && !attr_ref(script, op.attr).as_value
}

/// Whether an operation opens a value.
fn is_opening(code: OpCode) -> bool
    ensures { result ≡ is_opening code }
{
    match code {
        OpCode::Begin | OpCode::Set => true,
        OpCode::End => false,
    }
}
