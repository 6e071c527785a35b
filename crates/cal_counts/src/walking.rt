//! The boards of a run, walked operation by operation for what they hold.
ghost use Rattle.std.specs.Prelude.{◌≡◌, flat_map, All, OnOk};
ghost use Rattle.cal_context.specs.Tree.{Grows};
ghost use Rattle.cal_run.specs.History.{placed_operation};
ghost use Rattle.cal_run.specs.Holding.{HoldsPaths};
ghost use Rattle.cal_run.specs.Numbers.{AreNumbered};
ghost use Rattle.cal_run.specs.Paths.{held_by_process, held_by_thread, own_operation};
ghost use Rattle.cal_script.specs.Valid.{IsPlaced, IsRunnable};

use crate::held::HeldNodes;
use cal_board::Board;
use cal_context::Context;
use cal_run::{Numbers, Operation, is_process_line, line_at, operation_of};
use cal_script::{Line, Placed, Script};
use cal_value::OutOfMemory;
use std::alloc::Global;

/// Adds what the boards of the threads hold, each behind its own lines.
pub(crate) fn hold_threads(
    alloc: Global,
    script: &Script,
    numbers: &Numbers,
    context: &mut Context,
    held: &mut HeldNodes,
) -> Result<(), OutOfMemory>
    requires runnable { IsRunnable script.now }
    requires numbered { AreNumbered context.old script.now numbers.now }
    ensures held { OnOk result (HoldsPaths context.old context.new held.old.nodes held.new.nodes
        (flat_map (held_by_thread script.now) script.now.threads)) }
    ensures grows { Grows context.old context.new }
{
    for thread in script.threads.as_slice() {
        let lines = thread.as_slice();
        hold_lines(alloc, script, numbers, lines, context, held)?;
    }
    Ok(())
}

/// Adds what the board of a thread holds behind each of its lines.
fn hold_lines(
    alloc: Global,
    script: &Script,
    numbers: &Numbers,
    lines: &[Line],
    context: &mut Context,
    held: &mut HeldNodes,
) -> Result<(), OutOfMemory>
    requires numbered { AreNumbered context.old script.now numbers.now }
    requires placed { All (IsPlaced script.now.attributes script.now.channels script.now.values)
        lines.now }
    ensures held { OnOk result (HoldsPaths context.old context.new held.old.nodes held.new.nodes
        (held_by_thread script.now lines.now)) }
    ensures grows { Grows context.old context.new }
{
    let mut board = Board::new(alloc);
    for line in lines {
        let op = own_operation(script, *line);
        held.hold_behind(alloc, script, numbers, op, &mut board, context)?;
    }
    Ok(())
}

/// What a line does to its thread's own board.
fn own_operation(script: &Script, line: Line) -> Option<Operation>
    ensures { result ≡ own_operation script.now line }
{
    if is_process_line(script, line) {
        None
    } else {
        operation_of(line)
    }
}

/// Adds what the process's board holds behind each operation of a history.
pub(crate) fn hold_history(
    alloc: Global,
    script: &Script,
    numbers: &Numbers,
    history: &[Placed],
    context: &mut Context,
    held: &mut HeldNodes,
) -> Result<(), OutOfMemory>
    requires runnable { IsRunnable script.now }
    requires numbered { AreNumbered context.old script.now numbers.now }
    ensures held { OnOk result (HoldsPaths context.old context.new held.old.nodes held.new.nodes
        (held_by_process script.now history.now)) }
    ensures grows { Grows context.old context.new }
{
    let mut board = Board::new(alloc);
    for placed in history {
        let op = placed_operation(script, *placed);
        held.hold_behind(alloc, script, numbers, op, &mut board, context)?;
    }
    Ok(())
}

/// The operation that is placed.
fn placed_operation(script: &Script, placed: Placed) -> Option<Operation>
    ensures { result ≡ placed_operation script.now placed }
{
    operation_of(line_at(script, placed)?)
}
