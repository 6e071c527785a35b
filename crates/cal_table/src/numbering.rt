ghost use Rattle.std.specs.Prelude.{◌≡◌, ◌≤◌, ◌^◌, Some, IfOk, All, length, map, slice_get};
ghost use Rattle.std.specs.List.{Contains};
ghost use Rattle.cal_context.specs.Lists.{AreApart};
ghost use Rattle.cal_snap.specs.Numbered.{IsKnown, entry_of};
ghost use Rattle.cal_table.specs.Numbering.{MayAdd, Numbers};

use cal_snap::{NumberedEntry, NumberedSnap, Snap};
use cal_value::{Attribute, Entry, OutOfMemory, Seq, TryCopy};
use indexmap::IndexSet;
use std::alloc::Global;
use std::hash::RandomState;
use std::marker::Model;

/// Attributes by their numbers, their places in a list. Made once, it serves for any number of
/// snapshots.
#[derive(Drop)]
pub struct AttributeNumbers {
    attributes: IndexSet<Attribute, RandomState>,
}

impl Model for AttributeNumbers {
    ghost use Rattle.std.specs.Prelude.{List, ◌≤◌, ◌^◌, length};
    ghost use Rattle.cal_value.specs.declared.attribute.Attribute.{Attribute};

    ghost Value = { List Attribute };

    ghost view = { λ n. n.attributes.keys };

    ghost invariant = { λ n. length n.attributes.keys ≤ 2 ^ 32 };
}

impl AttributeNumbers {
    /// The numbers of the attributes of a list that has each once. It takes time and memory in the
    /// attributes and their names.
    pub fn of(
        alloc: Global,
        hashers: RandomState,
        attrs: &Seq<Attribute>,
    ) -> Result<AttributeNumbers, OutOfMemory>
        requires apart { AreApart attrs.now }
        requires few { length attrs.now ≤ 2 ^ 32 }
        ensures { IfOk result (λ numbers. numbers ≡ attrs.now) }
    {
        let mut attributes = IndexSet::with_capacity_and_hasher(alloc, attrs.len(), hashers)?;
        for attr in attrs.as_slice() {
            attributes.insert(attr.copy(alloc)?)?;
        }
        Ok(AttributeNumbers { attributes })
    }

    /// The snapshot by numbers that means another one.
    pub(crate) fn numbered(&self, alloc: Global, snap: &Snap) -> Result<NumberedSnap, OutOfMemory>
        requires { MayAdd self.now snap.now }
        ensures { IfOk result (λ numbered. Numbers self.now snap.now numbered) }
    {
        Ok(NumberedSnap {
            refs: Vec::from_slice(alloc, snap.refs.as_slice())?,
            imms: self.entries(alloc, snap.imms.as_slice())?,
        })
    }

    // The entries by numbers that mean others.
    fn entries(&self, alloc: Global, named: &[Entry]) -> Result<Vec<NumberedEntry>, OutOfMemory>
        requires { All (λ e. Contains self.now e.attr) named.now }
        ensures known { IfOk result (λ entries. All (IsKnown self.now) entries.items) }
        ensures mean { IfOk result (λ entries. map (entry_of self.now) entries.items ≡ named.now) }
    {
        let mut entries = Vec::with_capacity(alloc, named.len())?;
        for entry in named {
            entries.push(NumberedEntry {
                attribute: self.number_of(&entry.attr),
                value: entry.value.copy(alloc)?,
            })?;
        }
        Ok(entries)
    }

    // The number of an attribute.
    fn number_of(&self, attr: &Attribute) -> u32
        requires { Contains self.now attr.now }
        ensures { slice_get self.now result ≡ Some attr.now }
    {
        let Some(number) = self.attributes.get_index_of(attr) else {
            unreachable!()
        };
        number as u32
    }
}
