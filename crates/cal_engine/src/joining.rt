ghost use Rattle.std.specs.Prelude.{◌++◌, List, IfOk, OnOk};
ghost use Rattle.cal_context.specs.Tree.{Grows, Tree};
ghost use Rattle.cal_ql.specs.declared.query.Query.{Query as AQuery};
ghost use Rattle.cal_value.specs.declared.record.Rec.{Rec as ARecord};
ghost use Rattle.cal_keys.specs.Keys.{nth_key};
ghost use Rattle.cal_keys.specs.Moves.{AreMovedNodes, IsMovedKey};
ghost use Rattle.cal_engine.specs.Numbered.{AreGroups};

use crate::numbered::NumberedGroups;
use cal_context::{Context, NodeNumber};
use cal_keys::{GroupKey, KeyTable, find_way, move_way, moved_nodes, number_in, renumbered_nodes};
use cal_value::OutOfMemory;
use std::alloc::Global;

/// Puts the groups of other records behind, in their order, each to the group of its key. Their keys
/// lie in a tree of their own, whose nodes are put into the tree of the groups, each once.
pub(crate) fn merge_groups(
    alloc: Global,
    groups: &mut NumberedGroups,
    room: &mut Context,
    others: &NumberedGroups,
    its: &Context,
) -> Result<(), OutOfMemory>
    ensures merged { OnOk result ((q : AQuery) (rs ss : List ARecord)
        → AreGroups room.old q rs groups.old → AreGroups its.now q ss others.now
        → AreGroups room.new q (rs ++ ss) groups.new) }
    ensures grows { Grows room.old room.new }
{
    let nodes = moved_key_nodes(alloc, its, room, others.keys())?;
    gather_groups(alloc, groups, room, others, its, &nodes)
}

/// The numbers in another context of the nodes that keys have, and of those above them.
fn moved_key_nodes(
    alloc: Global,
    from: &Context,
    to: &mut Context,
    keys: &KeyTable,
) -> Result<Vec<Option<NodeNumber>>, OutOfMemory>
    ensures moved { IfOk result (λ moved. AreMovedNodes from.now to.new moved.items) }
    ensures grows { Grows to.old to.new }
{
    let mut moved = moved_nodes(alloc, from, to, keys)?;
    move_imms(alloc, from, to, keys, &mut moved)?;
    Ok(moved)
}

/// Moves the nodes of the immediates of keys too. One that isn't of the context is answered as want
/// of memory is.
fn move_imms(
    alloc: Global,
    from: &Context,
    to: &mut Context,
    keys: &KeyTable,
    moved: &mut Vec<Option<NodeNumber>>,
) -> Result<(), OutOfMemory>
    ensures moved { OnOk result (AreMovedNodes from.now to.old moved.old.items
        → AreMovedNodes from.now to.new moved.new.items) }
    ensures grows { Grows to.old to.new }
{
    let mut way = Vec::new(alloc);
    for number in 0..keys.count() {
        let imms = keys.imms(number);
        if imms.0 as usize >= from.node_count() {
            return Err(OutOfMemory);
        }
        find_way(from, imms, moved, &mut way)?;
        move_way(from, to, &way, moved)?;
    }
    Ok(())
}

/// Puts groups behind whose keys' nodes were put into the tree of the groups.
fn gather_groups(
    alloc: Global,
    groups: &mut NumberedGroups,
    room: &Context,
    others: &NumberedGroups,
    its: &Context,
    nodes: &[Option<NodeNumber>],
) -> Result<(), OutOfMemory>
    requires { AreMovedNodes its.now room.now nodes.now }
    ensures { OnOk result ((q : AQuery) (rs ss : List ARecord)
        → AreGroups room.now q rs groups.old → AreGroups its.now q ss others.now
        → AreGroups room.now q (rs ++ ss) groups.new) }
{
    room.has_each_once();
    its.has_each_once();
    let parts = others.parts();
    for number in 0..parts.count() {
        let key = moved_key(alloc, others.keys(), number, nodes)?;
        let own = parts.at(alloc, number)?;
        groups.gather_parts(alloc, &key, &own)?;
    }
    Ok(())
}

/// The key of a number by the numbers that its nodes have in another context.
fn moved_key(
    alloc: Global,
    keys: &KeyTable,
    number: usize,
    nodes: &[Option<NodeNumber>],
) -> Result<GroupKey, OutOfMemory>
    ensures { IfOk result (λ key. (t u : Tree) → AreMovedNodes t u nodes.now
        → IsMovedKey t u (nth_key keys.now number) key) }
{
    let Some(imms) = number_in(nodes, keys.imms(number)) else {
        return Err(OutOfMemory);
    };
    let paths = renumbered_nodes(alloc, nodes, keys.paths(number))?;
    Ok(GroupKey::of(paths, imms))
}
