ghost use Rattle.cal_board.specs.Blackboard.{Blackboard};
ghost use Rattle.cal_board.specs.Contexts.{NodeStands};
ghost use Rattle.cal_board.specs.Standing.{Stands, StandsForSome};
ghost use Rattle.cal_run.specs.Adding.{AsksFor, AsksForLast, IsEventValue, IsLastShown};
ghost use Rattle.cal_run.specs.Held.{HasPlaces};
ghost use Rattle.cal_run.specs.Snapshots.{closed_on, value_on};
ghost use Rattle.cal_value.specs.declared.variant.Variant as variants;

use crate::Operation;
use crate::lines::attr_ref;
use crate::sink::EventValue;
use cal_board::Board;
use cal_context::{Context, NodeNumber};
use cal_script::Script;
use cal_words::OpCode;

/// Whoever knows the values for which the nodes of boards stand.
pub trait NodeValues<N> {
    ghost use Rattle.std.specs.Prelude.{List};
    ghost use Rattle.cal_board.specs.declared.opened.Opened.{Opened};
    ghost use Rattle.cal_value.specs.declared.variant.Variant.{Variant};

    // whether a node stands for these open values, the outermost first
    ghost is_node: { Self → N → List (Opened Variant) → Type 0 };

    // whether places are those of these values, which are a script's
    ghost has_values: { Self → List Variant → Type 0 };

    // whether a node may be asked for its last value
    ghost is_asked: { Self → N → Type 0 };

    /// The last of the open values for which a node stands.
    fn last_value<'a>(&'a self, node: &'a N) -> EventValue<'a>
        requires stands { (path : List (Opened Variant)) × is_node self.now node.now path }
        requires asked { is_asked self.now node.now }
        ensures { (values : List Variant) → has_values self.now values
            → (path : List (Opened Variant)) → is_node self.now node.now path
            → IsLastShown values path result };
}

/// A context lends the value of a node's own entry, whichever node is asked for.
impl NodeValues<NodeNumber> for Context {
    ghost is_node = { NodeStands };

    ghost has_values = { λ _ _. Unit {0} };

    ghost is_asked = { λ _ _. Unit {0} };

    #[inline(always)]
    fn last_value<'a>(&'a self, node: &'a NodeNumber) -> EventValue<'a> {
        match self.link(*node) {
            None => EventValue::Absent,
            Some(link) => EventValue::Lent(self.value_at(link.value)),
        }
    }
}

/// The value of an event, by the board that its operation acts on.
#[inline(always)]
pub(crate) fn event_value<'a, N, V: NodeValues<N>>(
    script: &Script,
    op: Operation,
    board: &'a Board<N>,
    nodes: &'a V,
) -> EventValue<'a>
    requires places { HasPlaces script.now op }
    requires stands { StandsForSome (V.is_node nodes.now) board.now }
    requires values { V.has_values nodes.now script.now.values }
    requires asked { AsksFor (V.is_asked nodes.now) script.now board.now op }
    ensures { (b : Blackboard variants.Variant) → Stands (V.is_node nodes.now) board.now b
        → IsEventValue script.now.values result (value_on script.now b op.code op) }
{
    match op.code {
        OpCode::Begin => EventValue::Opened(op.value),
        OpCode::Set => EventValue::Opened(op.value),
        OpCode::End => closed_value(script, op, board, nodes),
    }
}

/// The value that an operation closes on a board.
#[inline(always)]
fn closed_value<'a, N, V: NodeValues<N>>(
    script: &Script,
    op: Operation,
    board: &'a Board<N>,
    nodes: &'a V,
) -> EventValue<'a>
    requires stands { StandsForSome (V.is_node nodes.now) board.now }
    requires values { V.has_values nodes.now script.now.values }
    requires asked { AsksForLast (V.is_asked nodes.now) script.now board.now op }
    ensures { (b : Blackboard variants.Variant) → Stands (V.is_node nodes.now) board.now b
        → IsEventValue script.now.values result (closed_on script.now b op) }
{
    let attr = attr_ref(script, op.attr);
    if attr.as_value {
        match board.last_immediate(attr) {
            Some(value) => EventValue::Lent(value),
            None => EventValue::Absent,
        }
    } else {
        match board.last_node(attr) {
            Some(node) => nodes.last_value(node),
            None => EventValue::Absent,
        }
    }
}
