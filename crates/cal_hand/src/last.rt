ghost use Rattle.std.specs.Prelude.{◌≡◌, ◌<◌, ◌++◌, [], ◌∷◌, IfOk, List, Some, length, option_map};
ghost use Rattle.cal_board.specs.Blackboard.{Blackboard, slot_number};
ghost use Rattle.cal_board.specs.PathBoards.{entry_in, last_at, last_opened};
ghost use Rattle.cal_board.specs.Slots.{opened_in};
ghost use Rattle.cal_board.specs.Standing.{Stands};
ghost use Rattle.cal_board.specs.declared.opened.Opened as opened;
ghost use Rattle.cal_hand.specs.Lasts.{HoldsLast};
ghost use Rattle.cal_hand.specs.Nodes.{NodeAt};
ghost use Rattle.cal_once.specs.Seats.{view};
ghost use Rattle.cal_once.specs.Views.{Learns};
ghost use Rattle.cal_tree.specs.Seats.{IsTreeSeat};
ghost use Rattle.cal_value.specs.declared.variant.Variant as variants;

use crate::SharedBoard;
use cal_board::AttrRef;
use cal_tree::{Tree, TreeSeat};
use cal_value::{Attribute, Entry, OutOfMemory, Seq, TryCopy, Variant};
use cal_words::{Node, NodeId};
use std::alloc::Global;

impl SharedBoard {
    /// The last entry of an attribute's slot, with attributes by their numbers in `attrs`. It takes
    /// time and memory in the words of a node.
    pub fn last(
        &self,
        alloc: Global,
        tree: &Tree,
        seat: &mut TreeSeat,
        attrs: &Seq<Attribute>,
        attr: AttrRef,
    ) -> Result<Entry, OutOfMemory>
        requires seat { IsTreeSeat tree.now seat.old }
        requires last { HoldsLast tree.now seat.old self.now attrs.now attr }
        ensures seat { IsTreeSeat tree.now seat.new }
        ensures learns { Learns (view seat.old) (view seat.new) }
        ensures entry { (b : Blackboard variants.Variant)
            → Stands (NodeAt tree.now seat.old) self.now b
            → IfOk result (λ entry. option_map (entry_in attrs.now) (last_at b attr) ≡ Some entry) }
    {
        if attr.as_value {
            return self.last_value(alloc, attrs, attr);
        }
        match self.board.last_node(attr) {
            Some(node) => entry_of_node(alloc, tree, seat, attrs, *node),
            None => unreachable!(),
        }
    }

    /// The last entry of an as-value slot.
    fn last_value(
        &self,
        alloc: Global,
        attrs: &Seq<Attribute>,
        attr: AttrRef,
    ) -> Result<Entry, OutOfMemory>
        requires { (o : opened.Opened variants.Variant)
            × (last_opened (opened_in (slot_number attr) self.now.as_values) ≡ Some o)
            × (o.attribute < length attrs.now) }
        ensures { IfOk result (λ entry. option_map (entry_in attrs.now)
            (last_opened (opened_in (slot_number attr) self.now.as_values)) ≡ Some entry) }
    {
        match self.board.last_opened(attr) {
            Some(last) => {
                let value = last.value.copy(alloc)?;
                entry(alloc, attrs, last.attribute, value)
            }
            None => unreachable!(),
        }
    }
}

/// The last entry of a node's path.
fn entry_of_node(
    alloc: Global,
    tree: &Tree,
    seat: &mut TreeSeat,
    attrs: &Seq<Attribute>,
    node: NodeId,
) -> Result<Entry, OutOfMemory>
    requires seat { IsTreeSeat tree.now seat.old }
    requires node { (path : List (opened.Opened variants.Variant))
        × (o : opened.Opened variants.Variant) × NodeAt tree.now seat.old node (path ++ o ∷ [])
        × (o.attribute < length attrs.now) }
    ensures seat { IsTreeSeat tree.now seat.new }
    ensures learns { Learns (view seat.old) (view seat.new) }
    ensures entry { (path : List (opened.Opened variants.Variant))
        (o : opened.Opened variants.Variant) → NodeAt tree.now seat.old node (path ++ o ∷ [])
        → IfOk result (λ entry. entry ≡ entry_in attrs.now o) }
{
    let mut words = Vec::new(alloc);
    let found = tree.read(alloc, seat, node, &mut words)?;
    let Node {
        parent: _,
        depth: _,
        attr,
        value,
    } = found;
    entry(alloc, attrs, attr, value)
}

/// The entry of a value under the attribute of a number.
fn entry(
    alloc: Global,
    attrs: &Seq<Attribute>,
    attribute: u32,
    value: Variant,
) -> Result<Entry, OutOfMemory>
    requires { attribute < length attrs.now }
    ensures { IfOk result (λ entry. entry
        ≡ entry_in attrs.now (record { attribute = attribute; value = value })) }
{
    Ok(Entry {
        attr: attrs.as_slice()[attribute as usize].copy(alloc)?,
        value,
    })
}
