ghost use Rattle.std.specs.Prelude.{◌≡◌, ◌+◌, ◌<◌, ◌≤◌, ◌^◌, ◌++◌, ◌∷◌, [], IfOk, List};
ghost use Rattle.cal_words.specs.Words.{text_length};
ghost use Rattle.cal_once.specs.Seats.{view};
ghost use Rattle.cal_once.specs.Views.{IsLater, Learns};
ghost use Rattle.cal_tree.specs.Children.{IsAnswer, deepest};
ghost use Rattle.cal_tree.specs.Paths.{IsDepthOf, NodeEntry};
ghost use Rattle.cal_tree.specs.Seats.{IsKnownNode, IsPathOf, IsTreeSeat, plan_of, slots_of};

use crate::{Tree, TreeSeat};
use cal_once::Put;
use cal_value::Variant;
use cal_words::{NodeId, NodeRec, TreeFull, know_node};

const DEEPEST: u64 = 128;

impl Tree {
    /// The child of a node by an attribute's number and a value, which is found or made. Every call
    /// with the same path gives this node. It takes no memory and never waits, and takes time in
    /// the value's length and in the slots that it passes.
    pub fn child(
        &self,
        seat: &mut TreeSeat,
        parent: NodeId,
        attr: u32,
        value: &Variant,
    ) -> Result<NodeId, TreeFull>
        requires seat { IsTreeSeat self.now seat.old }
        requires parent { IsKnownNode self.now seat.old parent.0 }
        requires text { text_length value.now < 2 ^ 32 }
        ensures seat { IsTreeSeat self.now seat.new }
        ensures later { IsLater (view seat.old) (view seat.new) }
        ensures answer { IsAnswer (plan_of self.now) parent.0
            (record { attr = attr; value = value.now }) (view seat.old) (view seat.new) result }
        ensures known { IfOk result (λ node. IsKnownNode self.now seat.new node.0) }
        ensures path { (path : List NodeEntry) → IsPathOf self.now seat.new path parent.0
            → IfOk result (λ node. IsPathOf self.now seat.new
            (path ++ record { attr = attr; value = value.now } ∷ []) node.0) }
    {
        let depth = self.depth(seat, parent);
        if depth >= DEEPEST {
            return Err(TreeFull::TooDeep);
        }
        let node = NodeRec {
            parent,
            depth: depth as u32 + 1,
            attr,
            value,
        };
        know_node(&node);
        match self.rows.put(seat, &node, 0) {
            Put::Placed {
                place,
                fresh: _fresh,
            } => Ok(NodeId(place as u32 + 1)),
            Put::RowsFull => Err(TreeFull::RowsFull),
            Put::ArenaFull { used, need } => Err(TreeFull::ArenaFull { used, need }),
        }
    }

    // How many nodes lie on the way from the root to a node, the node among them.
    pub(crate) fn depth(&self, seat: &mut TreeSeat, node: NodeId) -> u64
        requires seat { IsTreeSeat self.now seat.old }
        requires known { IsKnownNode self.now seat.old node.0 }
        ensures seat { IsTreeSeat self.now seat.new }
        ensures learns { Learns (view seat.old) (view seat.new) }
        ensures depth { IsDepthOf (slots_of self.now) (view seat.new) node.0 result }
        ensures few { result ≤ deepest }
    {
        if node.0 == 0 {
            return 0;
        }
        self.rows.word(seat, u64::from(node.0) - 1, 1)
    }
}
