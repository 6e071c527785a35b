//! A look ahead at the nodes of a list, so that the processor has them near when their turn comes.
ghost use Rattle.std.specs.Prelude.{◌<◌, ◌≤◌, List, All, length};
ghost use Rattle.cal_nodes.specs.Numbers.{IsMet};
ghost use Rattle.cal_once.specs.Seats.{view};
ghost use Rattle.cal_once.specs.Views.{Learns};
ghost use Rattle.cal_tree.specs.Seats.{IsTreeSeat};

use crate::numbers::number_at;
use cal_context::NodeNumber;
use cal_tree::{Tree, TreeSeat};
use cal_words::NodeId;

/// So many nodes are looked at ahead.
const AHEAD: usize = 32;

/// At each 32nd place of a list, looks at the nodes from there on: at their numbers, and where they
/// have none at their first words. It changes nothing. The nodes of a run lie all over memory, and
/// putting one into a context takes too long for the processor to see the next one coming. Here
/// nothing stands between them, so it waits for several at a time.
pub(crate) fn look_ahead(
    numbers: &[Option<NodeNumber>],
    tree: &Tree,
    seat: &mut TreeSeat,
    nodes: &[NodeId],
    place: usize,
)
    requires seat { IsTreeSeat tree.now seat.old }
    requires nodes { All (IsMet tree.now seat.old numbers.now) nodes.now }
    requires place { place < length nodes.now }
    ensures seat { IsTreeSeat tree.now seat.new }
    ensures learns { Learns (view seat.old) (view seat.new) }
{
    if place % AHEAD == 0 {
        let left = nodes.len() - place;
        let until = if left < AHEAD {
            nodes.len()
        } else {
            place + AHEAD
        };
        for next in place..until {
            look(numbers, tree, seat, nodes[next]);
        }
    }
}

/// Looks at a node's number, and where it has none at its first words.
fn look(numbers: &[Option<NodeNumber>], tree: &Tree, seat: &mut TreeSeat, node: NodeId)
    requires seat { IsTreeSeat tree.now seat.old }
    requires node { IsMet tree.now seat.old numbers.now node }
    ensures seat { IsTreeSeat tree.now seat.new }
    ensures learns { Learns (view seat.old) (view seat.new) }
{
    if number_at(numbers, node).is_none() {
        let _words = tree.up(seat, node);
    }
}
