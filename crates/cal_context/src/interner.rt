ghost use Rattle.std.specs.Prelude.{◌≡◌, ◌+◌, ◌<◌, ◌^◌, [], length, take, IfOk, OnErr};
ghost use Rattle.cal_context.specs.Lists.{AreApart, Interns};

use cal_seeds::Seeds;
use cal_value::{Exact, OutOfMemory, TryCopy};
use indexmap::IndexSet;
use std::alloc::Global;
use std::hash::Hash;
use std::marker::Model;

/// Each item once, with its number from 0 for good.
#[derive(Drop)]
pub struct Interner<T: Exact + Hash> {
    items: IndexSet<T, Seeds>,
}

impl<T: Exact + Hash> Model for Interner<T> {
    ghost use Rattle.std.specs.Prelude.{List, ◌<◌, ◌^◌, length};

    ghost Value = { List T };

    ghost view = { λ s. s.items.keys };

    ghost invariant = { λ s. length s.items.keys < 2 ^ 32 };
}

impl<T: Exact + Hash> Interner<T> {
    /// No item. It takes no memory. Items are hashed by numbers that everybody knows.
    pub fn new(alloc: Global) -> Self
        ensures { result ≡ [] }
    {
        Interner::seeded(alloc, Seeds::fixed())
    }

    /// No item, where the items are hashed by the seeds of a run. It takes no memory.
    pub fn seeded(alloc: Global, seeds: Seeds) -> Self
        ensures { result ≡ [] }
    {
        Interner {
            items: IndexSet::with_hasher(alloc, seeds),
        }
    }

    /// The items by their numbers.
    pub fn as_slice(&self) -> &[T]
        ensures items { result.now ≡ self.now }
        ensures apart { AreApart self.now }
    {
        self.items.as_slice()
    }

    /// The number of an item, which is added where it is new. An interner that has 2^32 - 1 items
    /// answers as one without memory does.
    pub fn intern(&mut self, item: T) -> Result<u32, OutOfMemory>
    where
        T: Drop,
        ensures interned { IfOk result (Interns self.old item self.new) }
        ensures small { IfOk result (λ number. number + 1 < 2 ^ 32) }
        ensures err { OnErr result (self.new ≡ self.old) }
    {
        if self.items.len() >= u32::MAX as usize {
            return Err(OutOfMemory);
        }
        let (number, _) = self.items.insert_full(item)?;
        Ok(number as u32)
    }

    /// The same for an item that is lent, and copied only where it is new.
    pub fn intern_copy(&mut self, item: &T) -> Result<u32, OutOfMemory>
    where
        T: TryCopy,
        ensures interned { IfOk result (Interns self.old item.now self.new) }
        ensures small { IfOk result (λ number. number + 1 < 2 ^ 32) }
        ensures err { OnErr result (self.new ≡ self.old) }
    {
        if let Some(number) = self.items.get_index_of(item) {
            return Ok(number as u32);
        }
        let alloc = *self.items.allocator();
        self.intern(item.copy(alloc)?)
    }

    /// Drops the items from this number on.
    pub fn truncate(&mut self, count: usize)
    where
        T: Drop,
        ensures { self.new ≡ take count self.old }
    {
        self.items.truncate(count);
    }
}
