//! The nodes whose paths boards held so far.
ghost use Rattle.std.specs.Prelude.{◌≡◌, ◌<◌, [], length, map, All, OnOk};
ghost use Rattle.cal_board.specs.Blackboard.{Blackboard};
ghost use Rattle.cal_context.specs.Tree.{Grows, path_at};
ghost use Rattle.cal_run.specs.Adding.{MayHavePlaces};
ghost use Rattle.cal_run.specs.Held.{Holds, HoldsSome, HoldsThen};
ghost use Rattle.cal_run.specs.History.{board_placed};
ghost use Rattle.cal_run.specs.Holding.{HoldsPaths};
ghost use Rattle.cal_run.specs.Numbers.{AreNumbered};
ghost use Rattle.cal_run.specs.Paths.{held_behind, paths_of};
ghost use Rattle.cal_value.specs.declared.variant.Variant as variants;

use cal_board::Board;
use cal_context::{Context, Interner, NodeNumber};
use cal_run::{Numbers, Operation, operate};
use cal_script::Script;
use cal_seeds::Seeds;
use cal_value::OutOfMemory;
use std::alloc::Global;

/// The nodes whose paths boards held so far, each once.
#[derive(Drop)]
pub(crate) struct HeldNodes {
    pub nodes: Interner<NodeNumber>,
    /// Room for the nodes of a board.
    room: Vec<NodeNumber>,
}

impl HeldNodes {
    /// Before the first node. The nodes are hashed by the seeds.
    pub(crate) fn new(alloc: Global, seeds: Seeds) -> Self
        ensures { result.nodes ≡ [] }
    {
        HeldNodes {
            nodes: Interner::seeded(alloc, seeds),
            room: Vec::new(alloc),
        }
    }

    /// Does an operation to a board, if there is one, and adds what the board holds behind it.
    pub(crate) fn hold_behind(
        &mut self,
        alloc: Global,
        script: &Script,
        numbers: &Numbers,
        op: Option<Operation>,
        board: &mut Board<NodeNumber>,
        context: &mut Context,
    ) -> Result<(), OutOfMemory>
        requires numbered { AreNumbered context.old script.now numbers.now }
        requires places { MayHavePlaces script.now op }
        requires holds { HoldsSome context.old script.now board.old }
        ensures changed { OnOk result (HoldsThen context.old context.new script.now board.old
            board.new (λ b. board_placed script.now b op)) }
        ensures held { OnOk result ((b : Blackboard variants.Variant)
            → Holds context.old script.now board.old b → HoldsPaths context.old context.new
            self.old.nodes self.new.nodes (held_behind script.now b op)) }
        ensures grows { Grows context.old context.new }
    {
        match op {
            None => Ok(()),
            Some(op) => {
                operate(alloc, script, numbers, op, board, context)?;
                self.add_board(script, numbers, board, context)
            }
        }
    }

    /// Adds what a board holds.
    fn add_board(
        &mut self,
        script: &Script,
        numbers: &Numbers,
        board: &Board<NodeNumber>,
        context: &Context,
    ) -> Result<(), OutOfMemory>
        requires numbered { AreNumbered context.now script.now numbers.now }
        requires holds { HoldsSome context.now script.now board.now }
        ensures { OnOk result ((b : Blackboard variants.Variant)
            → Holds context.now script.now board.now b → HoldsPaths context.now context.now
            self.old.nodes self.new.nodes (paths_of script.now b)) }
    {
        let _ = script;
        let _ = numbers;
        board.has_few_slots();
        self.room.clear();
        board.refs(&mut self.room)?;
        add_nodes(context, &self.room, &mut self.nodes)
    }
}

/// Adds nodes to those that are there.
fn add_nodes(
    context: &Context,
    nodes: &[NodeNumber],
    held: &mut Interner<NodeNumber>,
) -> Result<(), OutOfMemory>
    requires { All (λ n. n.0 < length context.now.paths) nodes.now }
    ensures { OnOk result (HoldsPaths context.now context.now held.old held.new
        (map (path_at context.now) nodes.now)) }
{
    let _ = context;
    for node in nodes {
        held.intern(*node)?;
    }
    Ok(())
}
