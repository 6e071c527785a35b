ghost use Rattle.std.specs.Prelude.{OnOk};
ghost use Rattle.cal_context.specs.Tree.{Grows};
ghost use Rattle.cal_run.specs.Held.{Accepts, HasPlaces, HoldsSome, HoldsThen};
ghost use Rattle.cal_run.specs.History.{board_with};
ghost use Rattle.cal_run.specs.Numbers.{AreNumbered};

use crate::lines::attr_ref;
use crate::{Numbers, Operation};
use cal_board::Board;
use cal_context::{Context, NodeNumber};
use cal_script::Script;
use cal_value::OutOfMemory;
use cal_words::OpCode;
use std::alloc::Global;

/// Does to a board what an operation does, which is nothing where the board refuses it.
#[inline(always)]
pub fn operate(
    alloc: Global,
    script: &Script,
    numbers: &Numbers,
    op: Operation,
    board: &mut Board<NodeNumber>,
    context: &mut Context,
) -> Result<(), OutOfMemory>
    requires numbered { AreNumbered context.old script.now numbers.now }
    requires places { HasPlaces script.now op }
    requires holds { HoldsSome context.old script.now board.old }
    ensures changed { OnOk result (HoldsThen context.old context.new script.now board.old board.new
        (λ b. board_with script.now b op)) }
    ensures grows { Grows context.old context.new }
{
    let attr = attr_ref(script, op.attr);
    match op.code {
        OpCode::Begin => {
            let value = numbers.values[op.value as usize];
            let _reply = board.begin(alloc, context, attr, value)?;
            Ok(())
        }
        OpCode::Set => {
            let value = numbers.values[op.value as usize];
            let _reply = board.set(alloc, context, attr, value)?;
            Ok(())
        }
        OpCode::End => {
            let _reply = board.end(attr);
            Ok(())
        }
    }
}

/// Does to a board what an operation does that the board accepts.
#[inline(always)]
pub(crate) fn operate_accepted(
    alloc: Global,
    script: &Script,
    numbers: &Numbers,
    op: Operation,
    board: &mut Board<NodeNumber>,
    context: &mut Context,
) -> Result<(), OutOfMemory>
    requires numbered { AreNumbered context.old script.now numbers.now }
    requires places { HasPlaces script.now op }
    requires holds { HoldsSome context.old script.now board.old }
    requires accepted { Accepts script.now board.old op }
    ensures changed { OnOk result (HoldsThen context.old context.new script.now board.old board.new
        (λ b. board_with script.now b op)) }
    ensures grows { Grows context.old context.new }
{
    let attr = attr_ref(script, op.attr);
    match op.code {
        OpCode::Begin => {
            let value = numbers.values[op.value as usize];
            board.begin_accepted(alloc, context, attr, value)?;
            Ok(())
        }
        OpCode::Set => {
            let value = numbers.values[op.value as usize];
            let _reply = board.set(alloc, context, attr, value)?;
            Ok(())
        }
        OpCode::End => {
            board.end_accepted(attr);
            Ok(())
        }
    }
}
