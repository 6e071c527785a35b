ghost use Rattle.std.specs.Prelude.{◌≡◌, List, [], ◌++◌, map, All, IfOk};
ghost use Rattle.cal_value.specs.declared.attribute.Attribute.{Attribute as AnAttribute};
ghost use Rattle.cal_snap.specs.Numbered.{IsKnown, entry_of, meaning, taken};

use crate::Snap;
use crate::parts::{joined, nodes};
use cal_value::{Attribute, Entry, Exact, OutOfMemory, Seq, TryCopy, Variant};
use cal_words::NodeId;
use std::alloc::Global;

/// An entry by the number of its attribute, a place in a list of attributes.
#[derive(Debug, Drop, PartialEq, Eq, Hash)]
pub struct NumberedEntry {
    pub attribute: u32,
    pub value: Variant,
}

/// A snapshot whose entries have their attributes by numbers. Cleared and filled again, one serves
/// for any number of snapshots.
#[derive(Debug, Drop)]
pub struct NumberedSnap {
    pub refs: Vec<NodeId>,
    pub imms: Vec<NumberedEntry>,
}

impl Exact for NumberedEntry {
    ghost use Rattle.std.proofs.Common.{rules};
    ghost use Rattle.std.proofs.lemmas.Grind.{common_steps};
    ghost use Rattle.cal_value.specs.ExactOrder.{exact_tells};
    ghost use Rattle.cal_value.specs.OrderLaws.{value_exact};

    ghost tells = { Prim.search (rules, common_steps, exact_tells value_exact) };
}

impl TryCopy for NumberedEntry {
    fn copy(&self, alloc: Global) -> Result<NumberedEntry, OutOfMemory> {
        Ok(NumberedEntry {
            attribute: self.attribute,
            value: self.value.copy(alloc)?,
        })
    }
}

impl NumberedSnap {
    /// No node and no entry. It takes no memory.
    pub fn new(alloc: Global) -> NumberedSnap
        ensures refs { result.refs.items ≡ [] }
        ensures imms { result.imms.items ≡ [] }
    {
        NumberedSnap {
            refs: Vec::new(alloc),
            imms: Vec::new(alloc),
        }
    }

    /// Takes all nodes and entries away, and keeps the memory.
    pub fn clear(&mut self)
        ensures refs { self.new.refs.items ≡ [] }
        ensures imms { self.new.imms.items ≡ [] }
    {
        self.refs.clear();
        self.imms.clear();
    }

    /// The snapshot that it means, with attributes by their numbers in `attrs`. It takes time and
    /// memory in its nodes, its entries and their texts.
    pub fn named(&self, alloc: Global, attrs: &Seq<Attribute>) -> Result<Snap, OutOfMemory>
        requires { All (IsKnown attrs.now) self.now.imms.items }
        ensures { IfOk result (λ snap. snap ≡ meaning attrs.now self.now) }
    {
        Ok(Snap {
            refs: Seq::from_vec(Vec::from_slice(alloc, &self.refs)?),
            imms: entries(alloc, attrs, &self.imms)?,
        })
    }
}

/// The snapshot by numbers of these parts, in the order of `take_snap`. It takes time and memory in
/// the number of nodes and of `tops`.
pub fn take_numbered(
    alloc: Global,
    head: Vec<NumberedEntry>,
    mine: &Seq<NodeId>,
    process: &Seq<NodeId>,
    tops: Vec<NumberedEntry>,
) -> Result<NumberedSnap, OutOfMemory>
    ensures refs { IfOk result (λ snap. snap.refs.items ≡ mine.now ++ process.now) }
    ensures imms { IfOk result (λ snap. snap.imms.items ≡ head.items ++ tops.items) }
    ensures means { IfOk result (λ snap. (attrs : List AnAttribute) → meaning attrs snap
        ≡ taken (map (entry_of attrs) head.items) mine.now process.now
        (map (entry_of attrs) tops.items)) }
{
    let refs = nodes(alloc, mine, process)?;
    Ok(NumberedSnap {
        refs,
        imms: joined(head, tops)?,
    })
}

// The entries that numbered ones mean.
fn entries(
    alloc: Global,
    attrs: &Seq<Attribute>,
    numbered: &[NumberedEntry],
) -> Result<Seq<Entry>, OutOfMemory>
    requires { All (IsKnown attrs.now) numbered.now }
    ensures { IfOk result (λ named. named ≡ map (entry_of attrs.now) numbered.now) }
{
    let mut named = Vec::with_capacity(alloc, numbered.len())?;
    for entry in numbered {
        named.push(Entry {
            attr: attrs.as_slice()[entry.attribute as usize].copy(alloc)?,
            value: entry.value.copy(alloc)?,
        })?;
    }
    Ok(Seq::from_vec(named))
}
