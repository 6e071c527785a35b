ghost use Rattle.std.specs.Prelude.{◌≡◌, [], ◌∷◌, ◌++◌, length, filter, map, IfOk, OnOk};
ghost use Rattle.cal_context.specs.Tree.{Grows};
ghost use Rattle.cal_value.specs.Flat.{joined};
ghost use Rattle.cal_keys.specs.Keys.{key_in, nth_key};
ghost use Rattle.cal_keys.specs.Leading.{AreWays, Leads};
ghost use Rattle.cal_keys.specs.Trails.{is_chosen as is_chosen_so, mark as mark_of};
ghost use Rattle.cal_keys.specs.Trails.{trail as trail_of};

use crate::key::expanded;
use crate::key_table::KeyTable;
use crate::stepping::reach_from;
use cal_context::{Context, NodeNumber};
use cal_rowset::is_of_hierarchy;
use cal_value::{Attribute, Entry, Kind, OutOfMemory, Props, Rec, Text, TryCopy, Variant};
use std::alloc::Global;

/// The nodes to which the ways to groups lead.
pub fn ways_to(
    alloc: Global,
    context: &mut Context,
    keys: &[Rec],
) -> Result<Vec<NodeNumber>, OutOfMemory>
    ensures { IfOk result (λ nodes. AreWays context.new keys.now nodes.items) }
{
    let mut nodes = Vec::with_capacity(alloc, keys.len())?;
    for key in keys {
        let node = way_to(alloc, context, key)?;
        nodes.push(node)?;
    }
    Ok(nodes)
}

/// The nodes to which the ways to groups lead whose keys lie in a tree. One key at a time is
/// expanded.
pub fn ways_to_keys(
    alloc: Global,
    context: &mut Context,
    tree: &Context,
    keys: &KeyTable,
) -> Result<Vec<NodeNumber>, OutOfMemory>
    ensures { IfOk result (λ nodes.
        AreWays context.new (map (key_in tree.now) keys.now) nodes.items) }
{
    let mut nodes = Vec::with_capacity(alloc, keys.count())?;
    for number in 0..keys.count() {
        let node = way_to_key(alloc, context, tree, keys, number)?;
        nodes.push(node)?;
    }
    Ok(nodes)
}

/// The node to which the way to a number's group leads whose key lies in a tree.
fn way_to_key(
    alloc: Global,
    context: &mut Context,
    tree: &Context,
    keys: &KeyTable,
    number: usize,
) -> Result<NodeNumber, OutOfMemory>
    ensures leads { IfOk result (λ n.
        Leads context.new (trail_of (key_in tree.now (nth_key keys.now number))) n) }
    ensures grows { OnOk result (Grows context.old context.new) }
{
    let key = expanded(alloc, tree, keys, number)?;
    way_to(alloc, context, &key)
}

/// The node to which the way to a group leads.
fn way_to(alloc: Global, context: &mut Context, key: &Rec) -> Result<NodeNumber, OutOfMemory>
    ensures leads { IfOk result (λ n. Leads context.new (trail_of key.now) n) }
    ensures grows { OnOk result (Grows context.old context.new) }
{
    let trail = trail(alloc, key)?;
    reach(context, &trail)
}

/// The node that a path leads to.
fn reach(context: &mut Context, path: &[Entry]) -> Result<NodeNumber, OutOfMemory>
    ensures leads { IfOk result (λ n. Leads context.new path.now n) }
    ensures grows { OnOk result (Grows context.old context.new) }
{
    context.has_each_once();
    let node = reach_from(context, NodeNumber::ROOT, path)?;
    Ok(node)
}

/// The way to a group, with entries of its own.
fn trail(alloc: Global, key: &Rec) -> Result<Vec<Entry>, OutOfMemory>
    ensures { IfOk result (λ entries. entries.items ≡ trail_of key.now) }
{
    let mut others = chosen(alloc, key, false)?;
    let mut imms = key.imms.copy(alloc)?.into_vec();
    let mut hierarchy = chosen(alloc, key, true)?;
    let mut entries = marks(alloc, others.len(), imms.len())?;
    entries.append(&mut others)?;
    entries.append(&mut imms)?;
    entries.append(&mut hierarchy)?;
    Ok(entries)
}

/// Two marks.
fn marks(alloc: Global, first: usize, second: usize) -> Result<Vec<Entry>, OutOfMemory>
    ensures { IfOk result (λ entries. entries.items ≡ mark_of first ∷ mark_of second ∷ []) }
{
    let mut entries = Vec::new(alloc);
    entries.push(mark(alloc, first))?;
    entries.push(mark(alloc, second))?;
    Ok(entries)
}

/// An entry that says how many entries of one kind there are.
fn mark(alloc: Global, count: usize) -> Entry
    ensures { result ≡ mark_of count }
{
    Entry {
        attr: Attribute {
            name: Text::new(alloc),
            kind: Kind::Uint,
            props: Props(0),
        },
        value: Variant::Uint(count as u64),
    }
}

/// The entries of a group's paths that are of the hierarchy, or the others.
fn chosen(alloc: Global, key: &Rec, nested: bool) -> Result<Vec<Entry>, OutOfMemory>
    ensures { IfOk result (λ entries. entries.items
        ≡ filter (is_chosen_so nested) (joined key.now.paths)) }
{
    let mut entries = Vec::new(alloc);
    for path in key.paths.as_slice() {
        add_chosen(alloc, &mut entries, path.as_slice(), nested)?;
    }
    Ok(entries)
}

fn add_chosen(
    alloc: Global,
    chosen: &mut Vec<Entry>,
    entries: &[Entry],
    nested: bool,
) -> Result<(), OutOfMemory>
    ensures { OnOk result (chosen.new.items
        ≡ chosen.old.items ++ filter (is_chosen_so nested) entries.now) }
{
    for entry in entries {
        if is_chosen(entry, nested) {
            chosen.push(entry.copy(alloc)?)?;
        }
    }
    Ok(())
}

fn is_chosen(entry: &Entry, nested: bool) -> bool
    ensures { result ≡ is_chosen_so nested entry.now }
{
    if nested {
        is_of_hierarchy(&entry.attr)
    } else {
        !is_of_hierarchy(&entry.attr)
    }
}
