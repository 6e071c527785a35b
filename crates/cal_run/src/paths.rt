ghost use Rattle.std.specs.Prelude.{◌≡◌, ◌<◌, [], length, map, All, OnOk};
ghost use Rattle.cal_board.specs.Blackboard.{Blackboard};
ghost use Rattle.cal_context.specs.Tree.{Grows, path_at};
ghost use Rattle.cal_run.specs.Adding.{MayHavePlaces};
ghost use Rattle.cal_run.specs.Held.{Holds, HoldsSome, HoldsThen};
ghost use Rattle.cal_run.specs.History.{board_placed};
ghost use Rattle.cal_run.specs.Holding.{HoldsPaths};
ghost use Rattle.cal_run.specs.Numbers.{AreNumbered};
ghost use Rattle.cal_run.specs.Paths.{held_behind, own_operation, paths_of};
ghost use Rattle.cal_value.specs.declared.variant.Variant as variants;

use crate::boards::operate;
use crate::lines::is_process_line;
use crate::node_set::NodeSet;
use crate::{Numbers, Operation, operation_of};
use cal_board::Board;
use cal_context::{Context, NodeNumber};
use cal_script::{Line, Script};
use cal_value::OutOfMemory;
use std::alloc::Global;

/// The nodes whose paths boards held so far, each once.
#[derive(Drop)]
pub(crate) struct HeldNodes {
    pub nodes: NodeSet,
    /// Room for the nodes of a board.
    room: Vec<NodeNumber>,
}

/// What a line does to its thread's own board.
pub(crate) fn own_operation(script: &Script, line: Line) -> Option<Operation>
    ensures { result ≡ own_operation script.now line }
{
    if is_process_line(script, line) {
        None
    } else {
        operation_of(line)
    }
}

/// Does an operation to a board, if there is one, and adds what the board holds behind it.
pub(crate) fn hold_behind(
    alloc: Global,
    script: &Script,
    numbers: &Numbers,
    op: Option<Operation>,
    board: &mut Board<NodeNumber>,
    context: &mut Context,
    held: &mut HeldNodes,
) -> Result<(), OutOfMemory>
    requires numbered { AreNumbered context.old script.now numbers.now }
    requires places { MayHavePlaces script.now op }
    requires holds { HoldsSome context.old script.now board.old }
    ensures changed { OnOk result (HoldsThen context.old context.new script.now board.old board.new
        (λ b. board_placed script.now b op)) }
    ensures held { OnOk result ((b : Blackboard variants.Variant)
        → Holds context.old script.now board.old b → HoldsPaths context.old context.new
        held.old.nodes held.new.nodes (held_behind script.now b op)) }
    ensures grows { Grows context.old context.new }
{
    match op {
        None => Ok(()),
        Some(op) => {
            operate(alloc, script, numbers, op, board, context)?;
            held.add_board(script, numbers, board, context)
        }
    }
}

impl HeldNodes {
    /// Before the first node.
    pub(crate) fn new(alloc: Global) -> Self
        ensures { result.nodes ≡ [] }
    {
        HeldNodes {
            nodes: NodeSet::new(alloc),
            room: Vec::new(alloc),
        }
    }

    /// Adds the nodes that others are.
    pub(crate) fn add_held(
        &mut self,
        others: &HeldNodes,
        context: &Context,
    ) -> Result<(), OutOfMemory>
        requires { All (λ n. n.0 < length context.now.paths) others.now.nodes }
        ensures { OnOk result (HoldsPaths context.now context.now self.old.nodes self.new.nodes
            (map (path_at context.now) others.now.nodes)) }
    {
        add_nodes(context, others.nodes.as_slice(), &mut self.nodes)
    }

    /// Adds what a board holds.
    fn add_board(
        &mut self,
        script: &Script,
        numbers: &Numbers,
        board: &Board<NodeNumber>,
        context: &Context,
    ) -> Result<(), OutOfMemory>
        requires numbered { AreNumbered context.now script.now numbers.now }
        requires holds { HoldsSome context.now script.now board.now }
        ensures { OnOk result ((b : Blackboard variants.Variant)
            → Holds context.now script.now board.now b → HoldsPaths context.now context.now
            self.old.nodes self.new.nodes (paths_of script.now b)) }
    {
        let _ = script;
        let _ = numbers;
        board.has_few_slots();
        self.room.clear();
        board.refs(&mut self.room)?;
        add_nodes(context, &self.room, &mut self.nodes)
    }
}

/// Adds nodes to those that are there.
fn add_nodes(context: &Context, nodes: &[NodeNumber], held: &mut NodeSet) -> Result<(), OutOfMemory>
    requires { All (λ n. n.0 < length context.now.paths) nodes.now }
    ensures { OnOk result (HoldsPaths context.now context.now held.old held.new
        (map (path_at context.now) nodes.now)) }
{
    let _ = context;
    for node in nodes {
        held.add(*node)?;
    }
    Ok(())
}
