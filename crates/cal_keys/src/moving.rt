ghost use Rattle.std.specs.Prelude.{◌≡◌, ◌<◌, length, map, slice_get, slice_set, None};
ghost use Rattle.std.specs.Prelude.{replicate, Some, IfOk, OnOk};
ghost use Rattle.std.specs.List.{All};
ghost use Rattle.cal_context.specs.Snapshots.{entry_of, meaning};
ghost use Rattle.cal_context.specs.Tree.{Grows, Tree, path_at};
ghost use Rattle.cal_context.specs.declared.numbers.AttributeNumber as numbers;
ghost use Rattle.cal_context.specs.declared.numbers.NodeNumber.{NodeNumber as ANode};
ghost use Rattle.cal_filter.specs.Results.{IsNumbered};
ghost use Rattle.cal_keys.specs.Keys.{key_in, nth_key};
ghost use Rattle.cal_keys.specs.Moves.{IsMoved};
ghost use Rattle.cal_keys.specs.Moves.{AreMovedAttributes, AreMovedNodes};
ghost use Rattle.cal_keys.specs.Leading.{Leads};

use crate::immediates::fill_immediates;
use crate::key_table::KeyTable;
use crate::within::are_below_root;
use cal_context::{AttributeNumber, Context, Immediate, NodeNumber, Snapshot};
use cal_value::{Attribute, OutOfMemory};
use std::alloc::Global;

/// A context, and the numbers in another one of its attributes and of those nodes that were put
/// there.
#[derive(Drop)]
pub struct Moved {
    from: Context,
    attributes: Vec<AttributeNumber>,
    nodes: Vec<Option<NodeNumber>>,
}

impl Moved {
    /// A context of which nothing was put into another one.
    pub fn none(alloc: Global, from: Context) -> Moved
        ensures { result.from ≡ from }
    {
        Moved {
            from,
            attributes: Vec::new(alloc),
            nodes: Vec::new(alloc),
        }
    }

    /// Puts the nodes of keys' paths and all attributes into another context. Each node is put
    /// there once.
    pub fn put(
        &mut self,
        alloc: Global,
        keys: &KeyTable,
        to: &mut Context,
    ) -> Result<(), OutOfMemory>
        ensures from { self.new.from ≡ self.old.from }
        ensures moved { OnOk result (IsMoved to.new self.new) }
        ensures grows { Grows to.old to.new }
    {
        self.attributes = moved_attributes(alloc, &self.from, to)?;
        self.nodes = moved_nodes(alloc, &self.from, to, keys)?;
        Ok(())
    }

    /// The context from which they are.
    pub fn from(&self) -> &Context
        ensures { result.now ≡ self.now.from }
    {
        let _ = &self.nodes;
        &self.from
    }

    /// The group that a number's key means as a snapshot of the other context, in place of the one
    /// that is there.
    pub fn fill(
        &self,
        alloc: Global,
        keys: &KeyTable,
        number: usize,
        row: &mut Snapshot,
    ) -> Result<(), OutOfMemory>
        ensures { OnOk result ((t : Tree) → IsMoved t self.now
            → meaning t row.new ≡ key_in self.now.from (nth_key keys.now number)) }
    {
        let mut own = Vec::new(alloc);
        fill_immediates(alloc, &self.from, keys.imms(number), &mut own)?;
        let nodes = renumbered_nodes(alloc, &self.nodes, keys.paths(number))?;
        let imms = renumbered_imms(alloc, &self.attributes, own)?;
        row.nodes = nodes;
        row.imms = imms;
        Ok(())
    }
}

/// The numbers of a context's attributes in another.
pub(crate) fn moved_attributes(
    alloc: Global,
    from: &Context,
    to: &mut Context,
) -> Result<Vec<AttributeNumber>, OutOfMemory>
    ensures moved { IfOk result (λ moved. AreMovedAttributes from.now to.new moved.items) }
    ensures grows { Grows to.old to.new }
{
    let mut moved = Vec::new(alloc);
    for place in 0..from.attribute_count() {
        let Ok(number) = u32::try_from(place) else {
            return Err(OutOfMemory);
        };
        let attribute = from.attribute_at(AttributeNumber(number));
        let number = put_attribute(to, attribute)?;
        moved.push(number)?;
    }
    Ok(moved)
}

/// The numbers in another context of the nodes that the paths of keys have, and of those above
/// them. A key that isn't of the context is answered as want of memory is.
pub fn moved_nodes(
    alloc: Global,
    from: &Context,
    to: &mut Context,
    keys: &KeyTable,
) -> Result<Vec<Option<NodeNumber>>, OutOfMemory>
    ensures moved { IfOk result (λ moved. AreMovedNodes from.now to.new moved.items) }
    ensures grows { Grows to.old to.new }
{
    let mut moved = nothing_moved(alloc, from.node_count())?;
    let mut way = Vec::new(alloc);
    for number in 0..keys.count() {
        let paths = keys.paths(number);
        if !are_below_root(from, paths) {
            return Err(OutOfMemory);
        }
        move_nodes(from, to, paths, &mut moved, &mut way)?;
    }
    Ok(moved)
}

pub(crate) fn nothing_moved(
    alloc: Global,
    count: usize,
) -> Result<Vec<Option<NodeNumber>>, OutOfMemory>
    ensures { IfOk result (λ moved. moved.items ≡ replicate count None) }
{
    let mut moved = Vec::with_capacity(alloc, count)?;
    for place in 0..count {
        let _ = place;
        moved.push(None)?;
    }
    Ok(moved)
}

pub(crate) fn move_nodes(
    from: &Context,
    to: &mut Context,
    nodes: &[NodeNumber],
    moved: &mut Vec<Option<NodeNumber>>,
    way: &mut Vec<NodeNumber>,
) -> Result<(), OutOfMemory>
    requires { All (λ n. n.0 < length from.now.paths) nodes.now }
    ensures moved { OnOk result (AreMovedNodes from.now to.old moved.old.items
        → AreMovedNodes from.now to.new moved.new.items) }
    ensures grows { Grows to.old to.new }
{
    for node in nodes {
        find_way(from, *node, moved, way)?;
        move_way(from, to, way, moved)?;
    }
    Ok(())
}

/// The nodes from this one up that aren't moved yet, in place of those that are there.
pub fn find_way(
    from: &Context,
    node: NodeNumber,
    moved: &[Option<NodeNumber>],
    way: &mut Vec<NodeNumber>,
) -> Result<(), OutOfMemory>
    requires { node.0 < length from.now.paths }
    ensures { OnOk result (All (λ n. n.0 < length from.now.paths) way.new.items) }
{
    way.clear();
    let mut node = node;
    while let Some(link) = from.link(node) {
        if number_in(moved, node).is_some() {
            return Ok(());
        }
        way.push(node)?;
        node = link.parent;
    }
    way.push(node)?;
    Ok(())
}

/// Moves nodes, the last one first.
pub fn move_way(
    from: &Context,
    to: &mut Context,
    way: &[NodeNumber],
    moved: &mut Vec<Option<NodeNumber>>,
) -> Result<(), OutOfMemory>
    requires { All (λ n. n.0 < length from.now.paths) way.now }
    ensures moved { OnOk result (AreMovedNodes from.now to.old moved.old.items
        → AreMovedNodes from.now to.new moved.new.items) }
    ensures grows { Grows to.old to.new }
{
    let mut left = way.len();
    while left > 0 {
        left -= 1;
        move_node(from, to, way[left], moved)?;
    }
    Ok(())
}

fn move_node(
    from: &Context,
    to: &mut Context,
    node: NodeNumber,
    moved: &mut Vec<Option<NodeNumber>>,
) -> Result<(), OutOfMemory>
    requires { node.0 < length from.now.paths }
    ensures moved { OnOk result (AreMovedNodes from.now to.old moved.old.items
        → AreMovedNodes from.now to.new moved.new.items) }
    ensures grows { Grows to.old to.new }
{
    let number = put_node(from, to, node, moved)?;
    keep(moved, node, number)?;
    Ok(())
}

/// Puts a node into a context, below its parent's node there. Where that is missing it is answered
/// as want of memory is.
fn put_node(
    from: &Context,
    to: &mut Context,
    node: NodeNumber,
    moved: &[Option<NodeNumber>],
) -> Result<NodeNumber, OutOfMemory>
    requires { node.0 < length from.now.paths }
    ensures leads { IfOk result (λ number. AreMovedNodes from.now to.old moved.now
        → Leads to.new (path_at from.now node) number) }
    ensures grows { Grows to.old to.new }
{
    to.has_each_once();
    let Some(link) = from.link(node) else {
        return Ok(NodeNumber::ROOT);
    };
    let Some(parent) = number_in(moved, link.parent) else {
        return Err(OutOfMemory);
    };
    if parent.0 as usize >= to.node_count() {
        return Err(OutOfMemory);
    }
    let attribute = put_attribute(to, from.attribute_at(link.attribute))?;
    let number = to.child(parent, attribute, from.value_at(link.value))?;
    Ok(number)
}

/// The number of an attribute in a context, to which it is added where it is new.
fn put_attribute(to: &mut Context, attribute: &Attribute) -> Result<AttributeNumber, OutOfMemory>
    ensures numbered { IfOk result (IsNumbered to.new attribute.now) }
    ensures grows { Grows to.old to.new }
{
    to.attribute(attribute)
}

fn keep(
    moved: &mut Vec<Option<NodeNumber>>,
    node: NodeNumber,
    number: NodeNumber,
) -> Result<(), OutOfMemory>
    ensures { OnOk result (moved.new.items ≡ slice_set moved.old.items node.0 (Some number)) }
{
    if node.0 as usize >= moved.len() {
        return Err(OutOfMemory);
    }
    moved[node.0 as usize] = Some(number);
    Ok(())
}

/// The number of a node in another context, if it was put there.
pub fn number_in(moved: &[Option<NodeNumber>], node: NodeNumber) -> Option<NodeNumber>
    ensures { (k : ANode) → result ≡ Some k → slice_get moved.now node.0 ≡ Some (Some k) }
{
    *moved.get(node.0 as usize)?
}

pub fn renumbered_nodes(
    alloc: Global,
    moved: &[Option<NodeNumber>],
    nodes: &[NodeNumber],
) -> Result<Vec<NodeNumber>, OutOfMemory>
    ensures { IfOk result (λ numbers. (t u : Tree) → AreMovedNodes t u moved.now
        → map (path_at u) numbers.items ≡ map (path_at t) nodes.now) }
{
    let mut numbers = Vec::with_capacity(alloc, nodes.len())?;
    for node in nodes {
        let Some(number) = number_in(moved, *node) else {
            return Err(OutOfMemory);
        };
        numbers.push(number)?;
    }
    Ok(numbers)
}

fn renumbered_imms(
    alloc: Global,
    attributes: &[AttributeNumber],
    imms: Vec<Immediate>,
) -> Result<Vec<Immediate>, OutOfMemory>
    ensures { IfOk result (λ moved. (t u : Tree) → AreMovedAttributes t u attributes.now
        → map (entry_of u) moved.items ≡ map (entry_of t) imms.items) }
{
    let mut moved = Vec::with_capacity(alloc, imms.len())?;
    for imm in imms {
        let Some(attribute) = attribute_in(attributes, imm.attribute) else {
            return Err(OutOfMemory);
        };
        moved.push(Immediate {
            attribute,
            value: imm.value,
        })?;
    }
    Ok(moved)
}

/// The number of an attribute in another context, if it was put there.
pub(crate) fn attribute_in(
    attributes: &[AttributeNumber],
    attribute: AttributeNumber,
) -> Option<AttributeNumber>
    ensures { (k : numbers.AttributeNumber) → result ≡ Some k
        → slice_get attributes.now attribute.0 ≡ Some k }
{
    attributes.get(attribute.0 as usize).copied()
}
