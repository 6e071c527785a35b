ghost use Rattle.std.specs.Prelude.{IfOk};
ghost use Rattle.cal_write.specs.Nodes.{node_of_props, node_of_attribute};
ghost use Rattle.cal_write.specs.Nodes.{needed_by_props, needed_by_attribute};
ghost use Rattle.cal_write.specs.Stream.{AddsDescribed, AddsEntry, AddsLine, Describes, IsBegun};

use crate::built_in::{BuiltIn, built_in_nodes};
use crate::described::DescribedNode;
use crate::lines::write_node;
use crate::page::Page;
use cal_context::Interner;
use cal_seeds::Seeds;
use cal_value::{Attribute, Entry, OutOfMemory, TryCopy, Variant};
use std::alloc::Global;

// properties without a node of their own
const NO_PROPS: u32 = 0;

const BUILT_IN_IDS: [u32; 12] = [0, 1, 2, 3, 4, 5, 6, 7, 8, 9, 10, 11];

/// The lines of a stream, and the id that the next new node gets.
#[derive(Drop)]
pub(crate) struct Lines {
    pub(crate) next: u32,
    pub(crate) text: Page,
}

/// A stream as it is written: its lines, and the ids of the nodes of built-in attributes, which a
/// context may have or lack.
#[derive(Drop)]
pub(crate) struct Stream {
    described: Interner<DescribedNode>,
    ids: Vec<u32>,
    pub(crate) lines: Lines,
}

impl Lines {
    /// Writes the line of a new node, and gives its id.
    pub(crate) fn add(
        &mut self,
        parent: Option<u32>,
        attribute: u32,
        value: &Variant,
    ) -> Result<u32, OutOfMemory>
        ensures { IfOk result (AddsLine self.old self.new parent attribute value.now) }
    {
        let id = self.next;
        let Some(next) = id.checked_add(1) else {
            return Err(OutOfMemory);
        };
        write_node(&mut self.text, id, attribute, value, parent)?;
        self.next = next;
        Ok(id)
    }
}

impl Stream {
    /// The built-in nodes, and no text. Nodes are hashed by these seeds.
    pub(crate) fn new(alloc: Global, seeds: Seeds) -> Result<Stream, OutOfMemory>
        ensures { IfOk result IsBegun }
    {
        Ok(Stream {
            described: built_in_nodes(alloc, seeds)?,
            ids: BUILT_IN_IDS.to_vec(alloc)?,
            lines: Lines {
                next: 12,
                text: Page::new(alloc),
            },
        })
    }

    /// Gives the id of a node, and writes its line where it is new. A node of another than a
    /// built-in attribute is new, as the caller knows.
    pub(crate) fn add(
        &mut self,
        alloc: Global,
        parent: Option<u32>,
        attribute: u32,
        described: &Attribute,
        value: &Variant,
    ) -> Result<u32, OutOfMemory>
        ensures { IfOk result (AddsEntry self.old self.new parent attribute
            (record { attr = described.now; value = value.now })) }
    {
        if attribute > BuiltIn::OfProps.id() {
            let id = self.lines.add(parent, attribute, value)?;
            return Ok(id);
        }
        let entry = Entry {
            attr: described.copy(alloc)?,
            value: value.copy(alloc)?,
        };
        let id = self.add_described(parent, attribute, entry)?;
        Ok(id)
    }

    /// Gives the id of a node of a built-in attribute, and writes its line where it is new.
    fn add_described(
        &mut self,
        parent: Option<u32>,
        attribute: u32,
        entry: Entry,
    ) -> Result<u32, OutOfMemory>
        ensures { IfOk result (AddsDescribed self.old self.new parent attribute entry) }
    {
        let number = self.described.intern(DescribedNode { parent, entry })?;
        if let Some(id) = self.ids.get(number as usize) {
            return Ok(*id);
        }
        let node = &self.described.as_slice()[number as usize];
        let id = self.lines.add(parent, attribute, &node.entry.value)?;
        self.ids.push(id)?;
        Ok(id)
    }

    /// Writes what an attribute needs, and gives the id of its node.
    pub(crate) fn describe(
        &mut self,
        alloc: Global,
        attribute: &Attribute,
    ) -> Result<u32, OutOfMemory>
        ensures { IfOk result (Describes self.old self.new
            (needed_by_attribute attribute.now) (node_of_attribute attribute.now)) }
    {
        let parent = self.describe_props(alloc, attribute)?;
        let name = Variant::Text(attribute.name.copy(alloc)?);
        let entry = BuiltIn::OfNames.entry(alloc, name)?;
        let id = self.add_described(Some(parent), BuiltIn::OfNames.id(), entry)?;
        Ok(id)
    }

    /// Writes the node of an attribute's properties, and gives its id, or that of the kind's node.
    fn describe_props(&mut self, alloc: Global, attribute: &Attribute) -> Result<u32, OutOfMemory>
        ensures { IfOk result (Describes self.old self.new
            (needed_by_props attribute.now)
            (node_of_props attribute.now.props attribute.now.kind)) }
    {
        let kind = attribute.kind.node() as u32;
        let props = attribute.props.0;
        if props == NO_PROPS {
            return Ok(kind);
        }
        let entry = BuiltIn::OfProps.entry(alloc, Variant::Int(i128::from(props)))?;
        let id = self.add_described(Some(kind), BuiltIn::OfProps.id(), entry)?;
        Ok(id)
    }
}
