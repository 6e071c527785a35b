ghost use Rattle.std.specs.Prelude.{◌≡◌, ◌^◌, ◌<◌, IfOk, IsOk, OnErr, List};
ghost use Rattle.cal_board.specs.declared.opened.Opened.{Opened};
ghost use Rattle.cal_hand.specs.Hands.{AddsByHand, GrowsHand, grows-same, node-stays};
ghost use Rattle.cal_hand.specs.Nodes.{IsNodeFor, IsPlain};
ghost use Rattle.cal_hand.specs.Rooms.{HasNodeRoom};
ghost use Rattle.cal_once.specs.Seats.{view};
ghost use Rattle.cal_tree.specs.Seats.{IsTreeSeat, slots_of};
ghost use Rattle.cal_value.specs.declared.variant.Variant.{Variant};
ghost use Rattle.cal_words.specs.Words.{text_length};

use crate::Hand;
use cal_board::NodeMaker;
use cal_value::{OutOfMemory, Variant};
use cal_words::NodeId;
use std::alloc::Global;

/// A hand at a tree that has room for the node of its value, so that no node is refused.
#[derive(Drop)]
pub(crate) struct RoomyHand<'a> {
    pub(crate) hand: Hand<'a>,
}

impl<'a> NodeMaker<(), NodeId> for RoomyHand<'a> {
    ghost value_of = { λ roomy _. roomy.hand.value.now };

    ghost knows = { λ roomy _ _. IsTreeSeat roomy.hand.tree.now roomy.hand.seat.now
        × (text_length roomy.hand.value.now < 2 ^ 32) };

    ghost has_room = { λ roomy _.
        HasNodeRoom roomy.hand.tree.now roomy.hand.seat.now roomy.hand.value.now };

    ghost is_node = { λ roomy n path.
        IsNodeFor (slots_of roomy.hand.tree.now) (view roomy.hand.seat.now) n path };

    ghost grows = { λ old new. GrowsHand old.hand new.hand };

    ghost adds = { λ old new n. AddsByHand old.hand new.hand n };

    ghost refuses = { λ _ _ _ _ _. ⊥ };

    ghost is_plain = { λ roomy _. IsPlain roomy.hand.value.now };

    ghost same = { λ roomy. grows-same roomy.hand };

    ghost stays = { λ old new n path grows is. node-stays old.hand new.hand n path grows is };

    fn child(
        &mut self,
        parent: Option<&NodeId>,
        attribute: u32,
        value: (),
    ) -> Result<NodeId, OutOfMemory> {
        match self.hand.child(parent, attribute, value) {
            Ok(node) => Ok(node),
            Err(_full) => unreachable!(),
        }
    }

    fn copy(&self, alloc: Global, value: ()) -> Result<Variant, OutOfMemory> {
        self.hand.copy(alloc, value)
    }
}
