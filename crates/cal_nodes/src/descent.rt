//! The way down: its nodes are put into a context.
ghost use Rattle.std.specs.Prelude.{◌≡◌, ◌<◌, List, length, slice_set, Some, IfOk, OnErr};
ghost use Rattle.cal_board.specs.declared.opened.Opened.{Opened};
ghost use Rattle.cal_context.specs.Children.{AddsChild};
ghost use Rattle.cal_context.specs.Tree.{Grows, IsContext};
ghost use Rattle.cal_nodes.specs.Ways.{CanDescend, IsPut, IsWay};
ghost use Rattle.cal_once.specs.declared.seat.RowSeat.{RowSeat};
ghost use Rattle.cal_tree.specs.declared.tree.Tree as trees;
ghost use Rattle.cal_value.specs.declared.variant.Variant.{Variant};
ghost use Rattle.cal_words.specs.declared.sort.NodeSort.{NodeSort};

use crate::way::Step;
use cal_context::{AttributeNumber, Context, NodeNumber};
use cal_value::OutOfMemory;

/// Puts the nodes of a way into a context, below one that is there, the outermost first, and keeps
/// their numbers. The innermost one's is given. No step is left, or want of memory left some.
pub(crate) fn descend(
    numbers: &mut Vec<Option<NodeNumber>>,
    context: &mut Context,
    start: NodeNumber,
    steps: &mut Vec<Step>,
) -> Result<NodeNumber, OutOfMemory>
    requires { CanDescend context.old numbers.old.items start steps.old.items }
    ensures grows { Grows context.old context.new }
    ensures attributes { context.new.attributes ≡ context.old.attributes }
    ensures put { (tree : trees.Tree) (seat : RowSeat NodeSort) (path : List (Opened Variant))
        → IsWay tree seat context.old numbers.old.items start steps.old.items path
        → IsPut tree seat context.new numbers.new.items context.old numbers.old.items path result }
{
    let mut number = start;
    while let Some(step) = steps.pop() {
        number = put(numbers, context, number, step)?;
    }
    Ok(number)
}

// Puts a node into a context below another one, and keeps its number.
fn put(
    numbers: &mut Vec<Option<NodeNumber>>,
    context: &mut Context,
    parent: NodeNumber,
    step: Step,
) -> Result<NodeNumber, OutOfMemory>
    requires parent { parent.0 < length context.old.paths }
    requires attribute { step.attr < length context.old.attributes }
    requires place { step.node.0 < length numbers.old.items }
    ensures child { IfOk result (λ n. AddsChild context.old parent
        (record { 0 = step.attr }) step.value context.new n) }
    ensures kept { IfOk result (λ n.
        numbers.new.items ≡ slice_set numbers.old.items step.node.0 (Some n)) }
    ensures grows { Grows context.old context.new }
    ensures once { IsContext context.old × IsContext context.new }
    ensures err { OnErr result
        ((context.new ≡ context.old) × (numbers.new.items ≡ numbers.old.items)) }
{
    context.has_each_once();
    let number = context.child(parent, AttributeNumber(step.attr), &step.value)?;
    context.has_each_once();
    numbers[step.node.0 as usize] = Some(number);
    Ok(number)
}
