ghost use Rattle.std.specs.Prelude.{◌≡◌, ◌+◌, ◌<◌, ◌^◌, [], IfOk, OnErr};
ghost use Rattle.cal_context.specs.Lists.{AreApart, Interns};

use crate::Link;
use crate::link_hasher::LinkHashers;
use cal_seeds::Seeds;
use cal_value::OutOfMemory;
use indexmap::IndexSet;
use std::alloc::Global;
use std::marker::Model;

/// Each link once, with its number from 0 for good: an `Interner` that hashes in a link's own way.
#[derive(Drop)]
pub(crate) struct Links {
    items: IndexSet<Link, LinkHashers>,
}

impl Model for Links {
    ghost use Rattle.std.specs.Prelude.{List, ◌<◌, ◌^◌, length};
    ghost use Rattle.cal_context.specs.declared.numbers.Link.{Link};

    ghost Value = { List Link };

    ghost view = { λ s. s.items.keys };

    ghost invariant = { λ s. length s.items.keys < 2 ^ 32 };
}

impl Links {
    /// No link, where the links are hashed by seeds. It takes no memory.
    pub(crate) fn new(alloc: Global, seeds: Seeds) -> Self
        ensures { result ≡ [] }
    {
        Links {
            items: IndexSet::with_hasher(alloc, LinkHashers { seeds }),
        }
    }

    /// The links by their numbers.
    pub(crate) fn as_slice(&self) -> &[Link]
        ensures items { result.now ≡ self.now }
        ensures apart { AreApart self.now }
    {
        self.items.as_slice()
    }

    /// The number of a link, which is added where it is new, as `Interner::intern` does.
    pub(crate) fn intern(&mut self, link: Link) -> Result<u32, OutOfMemory>
        ensures interned { IfOk result (Interns self.old link self.new) }
        ensures small { IfOk result (λ number. number + 1 < 2 ^ 32) }
        ensures err { OnErr result (self.new ≡ self.old) }
    {
        if self.items.len() >= u32::MAX as usize {
            return Err(OutOfMemory);
        }
        let (number, _) = self.items.insert_full(link)?;
        Ok(number as u32)
    }
}
