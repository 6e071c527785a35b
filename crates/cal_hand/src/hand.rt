ghost use Rattle.std.specs.Prelude.{◌≡◌, ◌^◌, ◌<◌, IfOk, IsOk, OnErr, List};
ghost use Rattle.cal_board.specs.declared.opened.Opened.{Opened};
ghost use Rattle.cal_hand.specs.Hands.{AddsByHand, GrowsHand, RefusesChild, grows-same, node-stays};
ghost use Rattle.cal_hand.specs.Nodes.{IsNodeFor, IsPlain};
ghost use Rattle.cal_once.specs.Seats.{view};
ghost use Rattle.cal_tree.specs.Seats.{IsTreeSeat, slots_of};
ghost use Rattle.cal_value.specs.declared.variant.Variant.{Variant};
ghost use Rattle.cal_words.specs.Words.{text_length};

use cal_board::NodeMaker;
use cal_tree::{Tree, TreeSeat};
use cal_value::{OutOfMemory, TryCopy, Variant};
use cal_words::{NodeId, TreeFull};
use std::alloc::Global;

/// A seat at a shared tree, with a value of which it makes the node.
#[derive(Drop)]
pub struct Hand<'a> {
    pub tree: &'a Tree,
    pub seat: &'a mut TreeSeat,
    pub value: &'a Variant,
    /// Why the tree made no node, where it refused it.
    pub full: Option<TreeFull>,
}

/// A tree that is full ends the call; `full` tells why, and a `SharedBoard` answers by it.
impl<'a> NodeMaker<(), NodeId> for Hand<'a> {
    ghost value_of = { λ hand _. hand.value.now };

    ghost knows = { λ hand _ _. IsTreeSeat hand.tree.now hand.seat.now
        × (text_length hand.value.now < 2 ^ 32) };

    ghost has_room = { λ _ _. Unit {0} };

    ghost is_node = { λ hand n path.
        IsNodeFor (slots_of hand.tree.now) (view hand.seat.now) n path };

    ghost grows = { GrowsHand };

    ghost adds = { AddsByHand };

    ghost refuses = { λ old new parent attribute _. RefusesChild old new parent attribute };

    ghost is_plain = { λ hand _. IsPlain hand.value.now };

    ghost same = { λ hand. grows-same hand };

    ghost stays = { λ old new n path grows is. node-stays old new n path grows is };

    fn child(
        &mut self,
        parent: Option<&NodeId>,
        attribute: u32,
        _value: (),
    ) -> Result<NodeId, OutOfMemory> {
        let parent = match parent {
            Some(node) => *node,
            None => NodeId(0),
        };
        match self.tree.child(self.seat, parent, attribute, self.value) {
            Ok(node) => Ok(node),
            Err(full) => {
                self.full = Some(full);
                Err(OutOfMemory)
            }
        }
    }

    fn copy(&self, alloc: Global, _value: ()) -> Result<Variant, OutOfMemory> {
        match self.value {
            Variant::Int(number) => Ok(Variant::Int(*number)),
            Variant::Uint(number) => Ok(Variant::Uint(*number)),
            Variant::Bool(truth) => Ok(Variant::Bool(*truth)),
            Variant::Addr(address) => Ok(Variant::Addr(*address)),
            Variant::Kind(kind) => Ok(Variant::Kind(*kind)),
            Variant::Fixed(nanos) => Ok(Variant::Fixed(*nanos)),
            text => text.copy(alloc),
        }
    }
}
