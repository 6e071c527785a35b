ghost use Rattle.std.specs.Prelude.{OnOk};
ghost use Rattle.cal_run.specs.Held.{HasPlaces};
ghost use Rattle.cal_run.specs.History.{board_with};
ghost use Rattle.cal_run.specs.Noting.{OutlinesSome, OutlinesThen};

use crate::Operation;
use crate::lines::attr_ref;
use cal_board::{Board, NodeMaker};
use cal_script::Script;
use cal_value::{OutOfMemory, TryCopy, Variant};
use cal_words::OpCode;
use std::alloc::Global;

/// What stands for an open value where a board is only asked for its replies: nothing.
#[derive(Clone, Copy, Debug, PartialEq, Eq)]
pub(crate) struct Nothing;

/// Makes nothing for the values of reference slots.
#[derive(Clone, Copy)]
struct Outliner;

impl<'a> NodeMaker<&'a Variant, Nothing> for Outliner {
    ghost value_of = { λ _ v. v.now };

    ghost knows = { λ _ _ _. Unit {0} };

    ghost has_room = { λ _ _. Unit {0} };

    ghost is_node = { λ _ _ _. Unit {0} };

    ghost grows = { λ _ _. Unit {0} };

    ghost adds = { λ _ _ _. Unit {0} };

    ghost refuses = { λ _ _ _ _ _. ⊥ };

    ghost is_plain = { λ _ _. ⊥ };

    ghost same = { λ _. tt };

    ghost stays = { λ _ _ _ _ _ is. is };

    fn child(
        &mut self,
        _parent: Option<&Nothing>,
        _attribute: u32,
        _value: &'a Variant,
    ) -> Result<Nothing, OutOfMemory> {
        Ok(Nothing)
    }

    fn copy(&self, alloc: Global, value: &'a Variant) -> Result<Variant, OutOfMemory> {
        value.copy(alloc)
    }
}

/// Does to the outline of a board what an operation does to the board.
#[tactic(auto, using(crate::proofs::OutlineLemmas::value_there))]
pub(crate) fn operate_outline(
    alloc: Global,
    script: &Script,
    op: Operation,
    board: &mut Board<Nothing>,
) -> Result<(), OutOfMemory>
    requires places { HasPlaces script.now op }
    requires outlines { OutlinesSome board.old }
    ensures { OnOk result (OutlinesThen board.old board.new (λ b. board_with script.now b op)) }
{
    let mut outliner = Outliner;
    let attr = attr_ref(script, op.attr);
    match op.code {
        OpCode::Begin => {
            let value = script.values.at(op.value as usize);
            let _reply = board.begin(alloc, &mut outliner, attr, value)?;
            Ok(())
        }
        OpCode::Set => {
            let value = script.values.at(op.value as usize);
            let _reply = board.set(alloc, &mut outliner, attr, value)?;
            Ok(())
        }
        OpCode::End => {
            let _reply = board.end(attr);
            Ok(())
        }
    }
}
