ghost use Rattle.std.specs.Prelude.{◌≡◌, ◌<◌, length, map, IfOk, IfSome, IsTrue};
ghost use Rattle.cal_keys.specs.Keys.{key_in};
ghost use Rattle.cal_keys.specs.OwnWays.{AreNestedBefore, IsNestedAt};
ghost use Rattle.cal_keys.specs.Leading.{AreWaysBehind};
ghost use Rattle.cal_keys.specs.Trails.{no_marks};

use crate::key_table::KeyTable;
use cal_context::{Context, NodeNumber};
use cal_rowset::is_of_hierarchy;
use cal_value::OutOfMemory;
use std::alloc::Global;

/// The own nodes of keys, where these stand to each other as the ways to their groups do: each key
/// is one path, or none, and the tree has no entry that isn't of the hierarchy.
pub fn own_ways(
    alloc: Global,
    tree: &Context,
    keys: &KeyTable,
) -> Result<Option<Vec<NodeNumber>>, OutOfMemory>
    ensures { IfOk result (λ found. IfSome found (λ nodes.
        AreWaysBehind tree.now no_marks (map (key_in tree.now) keys.now) nodes.items)) }
{
    if !is_nested(tree) {
        return Ok(None);
    }
    own_nodes(alloc, tree, keys)
}

fn own_nodes(
    alloc: Global,
    tree: &Context,
    keys: &KeyTable,
) -> Result<Option<Vec<NodeNumber>>, OutOfMemory>
    requires { AreNestedBefore tree.now (length tree.now.paths) }
    ensures { IfOk result (λ found. IfSome found (λ nodes.
        AreWaysBehind tree.now no_marks (map (key_in tree.now) keys.now) nodes.items)) }
{
    tree.has_each_once();
    let mut nodes = Vec::with_capacity(alloc, keys.count())?;
    for number in 0..keys.count() {
        let Some(node) = keys.single_node(number) else {
            return Ok(None);
        };
        if node.0 as usize >= tree.node_count() {
            return Ok(None);
        }
        nodes.push(node)?;
    }
    Ok(Some(nodes))
}

/// Whether each entry of a tree is of the hierarchy.
fn is_nested(tree: &Context) -> bool
    ensures { IsTrue result → AreNestedBefore tree.now (length tree.now.paths) }
{
    for place in 0..tree.node_count() {
        let Ok(number) = u32::try_from(place) else {
            return false;
        };
        if !has_nested_entry(tree, NodeNumber(number)) {
            return false;
        }
    }
    true
}

/// Whether a node's own entry is of the hierarchy; those of the nodes before it are known to be so.
fn has_nested_entry(tree: &Context, node: NodeNumber) -> bool
    requires { node.0 < length tree.now.paths }
    ensures { IsTrue result → AreNestedBefore tree.now node.0 → IsNestedAt tree.now node }
{
    match tree.link(node) {
        Some(link) => is_of_hierarchy(tree.attribute_at(link.attribute)),
        None => true,
    }
}
