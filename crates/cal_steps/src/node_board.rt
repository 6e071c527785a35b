//! The board whose newest path gets the next node of a line.
ghost use Rattle.std.specs.Prelude.{◌≡◌, ◌≤◌, ◌<◌, ℕ, Option, [], All, IfOk, OnOk, length, take};
ghost use Rattle.std.specs.Prelude.{slice_index_or};
ghost use Rattle.cal_run.specs.Adding.{MayHavePlaces};
ghost use Rattle.cal_run.specs.History.{board_placed};
ghost use Rattle.cal_run.specs.Paths.{own_operation};
ghost use Rattle.cal_script.specs.Valid.{IsPlaced, IsRunnable};
ghost use Rattle.cal_steps.specs.NodePlaces.{IsNodePlace, board_behind, board_of_lines};
ghost use Rattle.cal_steps.specs.NodePlaces.{node_board};
ghost use Rattle.cal_world.specs.Events.{seen_before};

use crate::boards::{operate, process_board};
use cal_board::PathBoard;
use cal_run::{Operation, is_process_line, operation_of};
use cal_script::{Journal, Line, Placed, Script};
use cal_value::OutOfMemory;
use cal_world::{Turn, placed_node, seen_before};
use std::alloc::Global;

/// The board behind the operation that the node behind so many of a line's is for.
pub(crate) fn node_board(
    alloc: Global,
    script: &Script,
    journal: &Journal,
    history: &[Placed],
    turn: Turn,
    count: u64,
) -> Result<PathBoard, OutOfMemory>
    requires runnable { IsRunnable script.now }
    requires thread { turn.thread < length script.now.threads }
    requires line { turn.number ≤ length (slice_index_or script.now.threads turn.thread []) }
    requires seen { turn.note.seen ≤ length history.now }
    ensures { IfOk result (λ board. (place : Option ℕ)
        × IsNodePlace script.now journal.now history.now turn.before
        (seen_before script.now turn) count place
        × (board ≡ node_board script.now history.now turn place)) }
{
    let to = seen_before(script, turn) as usize;
    match node_place(script, journal, history, turn.before as usize, to, count) {
        None => {
            let board = board_behind(alloc, script, history, turn)?;
            Ok(board)
        }
        Some(place) => {
            let board = process_board(alloc, script, history, place + 1)?;
            Ok(board)
        }
    }
}

/// The place of the history, from one up to another, whose operation needs a node and has so many
/// before it that do.
fn node_place(
    script: &Script,
    journal: &Journal,
    history: &[Placed],
    from: usize,
    to: usize,
    count: u64,
) -> Option<usize>
    requires { to ≤ length history.now }
    ensures { IsNodePlace script.now journal.now history.now from to count result }
{
    let mut left = count;
    for place in from..to {
        if placed_node(script, journal, history[place]) {
            if left == 0 {
                return Some(place);
            }
            left -= 1;
        }
    }
    None
}

/// The board on which a line acts, behind its operation.
fn board_behind(
    alloc: Global,
    script: &Script,
    history: &[Placed],
    turn: Turn,
) -> Result<PathBoard, OutOfMemory>
    requires runnable { IsRunnable script.now }
    requires thread { turn.thread < length script.now.threads }
    requires line { turn.number ≤ length (slice_index_or script.now.threads turn.thread []) }
    requires seen { turn.note.seen ≤ length history.now }
    ensures { IfOk result (λ board. board ≡ board_behind script.now history.now turn) }
{
    if is_process_line(script, turn.line) {
        return process_board(alloc, script, history, turn.note.seen as usize);
    }
    let lines = script.threads.as_slice()[turn.thread as usize].as_slice();
    board_of_lines(alloc, script, lines, turn.number as usize)
}

/// A thread's board behind its first lines.
fn board_of_lines(
    alloc: Global,
    script: &Script,
    lines: &[Line],
    count: usize,
) -> Result<PathBoard, OutOfMemory>
    requires places { All (IsPlaced script.now.attributes script.now.channels script.now.values)
        lines.now }
    requires within { count ≤ length lines.now }
    ensures { IfOk result (λ board. board ≡ board_of_lines script.now (take count lines.now)) }
{
    let mut board = PathBoard::new(alloc);
    for place in 0..count {
        operate_if(script, own_operation(script, lines[place]), &mut board)?;
    }
    Ok(board)
}

/// What a line does to its thread's own board.
fn own_operation(script: &Script, line: Line) -> Option<Operation>
    ensures { result ≡ own_operation script.now line }
{
    if is_process_line(script, line) {
        None
    } else {
        operation_of(line)
    }
}

/// Does to a board what an operation does, if there is one.
fn operate_if(
    script: &Script,
    op: Option<Operation>,
    board: &mut PathBoard,
) -> Result<(), OutOfMemory>
    requires { MayHavePlaces script.now op }
    ensures { OnOk result (board.new ≡ board_placed script.now board.old op) }
{
    match op {
        None => Ok(()),
        Some(op) => operate(script, op, board),
    }
}
