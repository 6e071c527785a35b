ghost use Rattle.std.specs.Prelude.{◌≡◌, [], Some, slice_get, take, IfOk, IsTrue, OnErr};
ghost use Rattle.cal_context.specs.Lists.{AreApart, Interns};

use crate::key::GroupKey;
use cal_context::{Interner, NodeNumber};
use cal_seeds::Seeds;
use cal_value::{OutOfMemory, same};
use std::alloc::Global;

/// Keys of groups by their numbers, each once.
#[derive(Drop)]
pub(crate) struct HashedKeys {
    keys: Interner<GroupKey>,
    // of nodes that stand first in keys: the number of the key that was last interned there
    hints: Vec<u32>,
}

impl HashedKeys {
    /// No key, where keys hash by these seeds. It takes no memory.
    pub(crate) fn new(alloc: Global, seeds: Seeds) -> HashedKeys
        ensures { result.keys ≡ [] }
    {
        HashedKeys {
            keys: Interner::seeded(alloc, seeds),
            hints: Vec::new(alloc),
        }
    }

    /// The keys by their numbers.
    pub(crate) fn as_slice(&self) -> &[GroupKey]
        ensures keys { result.now ≡ self.now.keys }
        ensures apart { AreApart self.now.keys }
    {
        let _ = &self.hints;
        self.keys.as_slice()
    }

    /// The number of a key, which is copied where it is new.
    pub(crate) fn intern(&mut self, key: &GroupKey) -> Result<usize, OutOfMemory>
        ensures interned { IfOk result (Interns self.old.keys key.now self.new.keys) }
        ensures err { OnErr result (self.new.keys ≡ self.old.keys) }
    {
        let near = hint_at(&self.hints, key.first());
        let number = intern_near(&mut self.keys, near, key)?;
        keep_hint(&mut self.hints, key.first(), number);
        Ok(number)
    }

    /// Drops the keys from this number on.
    pub(crate) fn truncate(&mut self, count: usize)
        ensures { self.new.keys ≡ take count self.old.keys }
    {
        self.keys.truncate(count);
    }
}

/// The number of the key that was last interned at a node, or any other.
fn hint_at(hints: &[u32], node: NodeNumber) -> usize {
    match hints.get(node.0 as usize) {
        Some(number) => *number as usize,
        None => 0,
    }
}

/// Keeps the number of a key at a node, where there is memory for it.
fn keep_hint(hints: &mut Vec<u32>, node: NodeNumber, number: usize) {
    let Ok(number) = u32::try_from(number) else {
        return;
    };
    let place = node.0 as usize;
    if place >= hints.len() && hints.resize(place + 1, 0).is_err() {
        return;
    }
    if place < hints.len() {
        hints[place] = number;
    }
}

/// The number of a key, which is copied where it is new. It may be `near`, which saves a look-up
/// then.
fn intern_near(
    keys: &mut Interner<GroupKey>,
    near: usize,
    key: &GroupKey,
) -> Result<usize, OutOfMemory>
    ensures interned { IfOk result (Interns keys.old key.now keys.new) }
    ensures err { OnErr result (keys.new ≡ keys.old) }
{
    if has_at(keys.as_slice(), near, key) {
        return Ok(near);
    }
    let number = keys.intern_copy(key)?;
    Ok(number as usize)
}

/// Whether a key stands at a place.
fn has_at(keys: &[GroupKey], place: usize, key: &GroupKey) -> bool
    ensures { IsTrue result → slice_get keys.now place ≡ Some key.now }
{
    match keys.get(place) {
        Some(other) => same(other, key),
        None => false,
    }
}
