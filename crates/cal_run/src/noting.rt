ghost use Rattle.std.specs.Prelude.{◌≡◌, ◌+◌, ◌<◌, ◌≤◌, true, length, All, IfOk, OnOk};
ghost use Rattle.std.specs.Prelude.{◌&&◌, not, if◌then◌else◌};
ghost use Rattle.cal_board.specs.Blackboard.{nothing_open};
ghost use Rattle.cal_run.specs.Adding.{MayHavePlaces};
ghost use Rattle.cal_run.specs.History.{board_placed};
ghost use Rattle.cal_run.specs.Lawful.{process_lines};
ghost use Rattle.cal_run.specs.Lines.{clock_after, is_process_line, operation_of};
ghost use Rattle.cal_run.specs.Noting.{HoldsPlaced, IsNoted, IsPlain, IsSomePlain, OutlinesSome};
ghost use Rattle.cal_run.specs.Noting.{OutlinesThen, before_after};
ghost use Rattle.cal_run.specs.Plain.{notes_from, plain_history};
ghost use Rattle.cal_run.specs.Steps.{ThreadState, at_start};
ghost use Rattle.cal_script.specs.Valid.{IsPlaced, IsRunnable};

use crate::lines::is_process_line;
use crate::note::{found_reply, note_of};
use crate::operation_of;
use crate::outline::{Nothing, operate_outline};
use crate::placed::PlacedProcess;
use crate::placing::line_in;
use crate::steps::{clock_after, is_accepted};
use cal_board::Board;
use cal_script::{Line, LineNote, Placed, Script};
use cal_value::{OutOfMemory, Seq};
use std::alloc::Global;

/// What is kept of a thread between two lines while they are noted: the outline of its board, its
/// clock, and how many operations it has seen.
#[derive(Drop)]
pub(crate) struct Plain {
    pub board: Board<Nothing>,
    pub clock: u64,
    pub seen: u64,
}

impl Plain {
    /// Before the first line.
    fn new(alloc: Global) -> Self
        ensures board { result.board ≡ nothing_open }
        ensures clock { result.clock ≡ 0 }
        ensures seen { result.seen ≡ 0 }
    {
        Plain {
            board: Board::new(alloc),
            clock: 0,
            seen: 0,
        }
    }
}

/// Notes the lines of a thread, which runs behind all operations that the process has taken in.
pub(crate) fn note_lines(
    alloc: Global,
    script: &Script,
    history: &[Placed],
    lines: &[Line],
    process: &mut PlacedProcess,
) -> Result<Seq<LineNote>, OutOfMemory>
    requires runnable { IsRunnable script.now }
    requires placed { All (IsPlaced script.now.attributes script.now.channels script.now.values)
        lines.now }
    requires history { history.now ≡ plain_history script.now }
    requires process { HoldsPlaced script.now history.now process.old }
    requires room { process.old.count + length (process_lines script.now lines.now)
        ≤ length history.now }
    ensures noted { IfOk result (λ notes.
        notes ≡ notes_from script.now process.old.count 0 at_start lines.now) }
    ensures process { OnOk result (HoldsPlaced script.now history.now process.new) }
    ensures count { OnOk result (process.new.count
        ≡ process.old.count + length (process_lines script.now lines.now)) }
{
    let mut thread = Plain::new(alloc);
    let mut notes = Seq::new(alloc);
    for place in 0..lines.len() {
        let line = line_in(lines, place);
        let note = note_line(alloc, script, history, line, &mut thread, process)?;
        notes.push(note)?;
    }
    Ok(notes)
}

/// Notes a line, and makes its change.
fn note_line(
    alloc: Global,
    script: &Script,
    history: &[Placed],
    line: Line,
    thread: &mut Plain,
    process: &mut PlacedProcess,
) -> Result<LineNote, OutOfMemory>
    requires runnable { IsRunnable script.now }
    requires placed { IsPlaced script.now.attributes script.now.channels script.now.values line }
    requires history { history.now ≡ plain_history script.now }
    requires process { HoldsPlaced script.now history.now process.old }
    requires thread { IsSomePlain thread.old }
    requires room { is_process_line script.now line ≡ true
        → process.old.count < length history.now }
    ensures noted { IfOk result (λ note. (state : ThreadState)
        → IsPlain thread.old state
        → IsNoted script.now process.old.count thread.old.seen line note thread.new
        state) }
    ensures process { OnOk result (HoldsPlaced script.now history.now process.new) }
    ensures count { OnOk result (process.new.count
        ≡ before_after script.now process.old.count line) }
{
    let reply = found_reply(script, line, thread, process);
    let note = note_of(script, line, reply, thread, process);
    thread.seen = note.seen;
    let accepted = is_accepted(reply);
    follow(alloc, script, history, line, accepted, thread, process)?;
    Ok(note)
}

/// Makes the change of a line: that of a process line by taking it in, and that of the thread's own
/// where it was accepted.
fn follow(
    alloc: Global,
    script: &Script,
    history: &[Placed],
    line: Line,
    accepted: bool,
    thread: &mut Plain,
    process: &mut PlacedProcess,
) -> Result<(), OutOfMemory>
    requires runnable { IsRunnable script.now }
    requires places { MayHavePlaces script.now (operation_of line) }
    requires process { HoldsPlaced script.now history.now process.old }
    requires outlines { OutlinesSome thread.old.board }
    requires room { is_process_line script.now line ≡ true
        → process.old.count < length history.now }
    ensures board { OnOk result (OutlinesThen thread.old.board thread.new.board
        (λ b. if accepted && not (is_process_line script.now line)
        then board_placed script.now b (operation_of line) else b)) }
    ensures clock { OnOk result (thread.new.clock
        ≡ (if accepted && not (is_process_line script.now line)
        then clock_after thread.old.clock line else thread.old.clock)) }
    ensures seen { OnOk result (thread.new.seen ≡ thread.old.seen) }
    ensures process { OnOk result (HoldsPlaced script.now history.now process.new) }
    ensures count { OnOk result (process.new.count
        ≡ before_after script.now process.old.count line) }
{
    if is_process_line(script, line) {
        process.take_next(alloc, script, history)
    } else if accepted {
        thread.clock = clock_after(thread.clock, line);
        change(alloc, script, line, &mut thread.board)
    } else {
        Ok(())
    }
}

/// Does to the outline of a board what a line does.
fn change(
    alloc: Global,
    script: &Script,
    line: Line,
    board: &mut Board<Nothing>,
) -> Result<(), OutOfMemory>
    requires places { MayHavePlaces script.now (operation_of line) }
    requires outlines { OutlinesSome board.old }
    ensures changed { OnOk result (OutlinesThen board.old board.new
        (λ b. board_placed script.now b (operation_of line))) }
{
    match operation_of(line) {
        None => Ok(()),
        Some(op) => operate_outline(alloc, script, op, board),
    }
}
