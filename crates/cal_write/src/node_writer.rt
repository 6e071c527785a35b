ghost use Rattle.std.specs.Prelude.{◌≡◌, ℕ, ◌<◌, [], length, IfOk, OnOk, None};
ghost use Rattle.cal_context.specs.Children.{IsLinked};
ghost use Rattle.cal_context.specs.Tree.{Tree};
ghost use Rattle.cal_write.specs.Kept.{AddsNode, IsKept, NeedsAttribute, NeedsNode};
ghost use Rattle.cal_write.specs.Memo.{memo_at};
ghost use Rattle.cal_write.specs.Written.{written};

use crate::memo::Memo;
use crate::stream::Stream;
use cal_context::{AttributeNumber, Context, Link, NodeNumber};
use cal_seeds::Seeds;
use cal_value::OutOfMemory;
use std::alloc::Global;

/// Writes what is needed of a context, each node where it is first needed, and notes the ids beside
/// the numbers of the nodes and attributes.
#[derive(Drop)]
pub(crate) struct NodeWriter {
    alloc: Global,
    pub(crate) stream: Stream,
    nodes: Memo,
    attributes: Memo,
}

impl NodeWriter {
    /// Nothing is written yet. What is looked up by its entry is hashed by these seeds.
    pub(crate) fn new(alloc: Global, seeds: Seeds) -> Result<NodeWriter, OutOfMemory>
        ensures { IfOk result (λ writer. (t : Tree) → IsKept t writer (written [])) }
    {
        Ok(NodeWriter {
            alloc,
            stream: Stream::new(alloc, seeds)?,
            nodes: Memo::new(alloc),
            attributes: Memo::new(alloc),
        })
    }

    /// Writes what a node and those above it need, and gives its id, if it isn't the root. Most
    /// nodes are known, which is seen without a call.
    #[inline(always)]
    pub(crate) fn node_id(
        &mut self,
        context: &Context,
        node: NodeNumber,
    ) -> Result<Option<u32>, OutOfMemory>
        requires { node.0 < length context.now.paths }
        ensures { IfOk result (NeedsNode context.now self.old self.new node) }
    {
        if let Some(id) = self.nodes.get(node.0) {
            return Ok(Some(id));
        }
        self.need_node(context, node)
    }

    /// The same, with what stays of the notes.
    fn need_node(&mut self, context: &Context, node: NodeNumber) -> Result<Option<u32>, OutOfMemory>
        requires { node.0 < length context.now.paths }
        ensures needs { IfOk result (NeedsNode context.now self.old self.new node) }
        ensures later { OnOk result ((k : ℕ) → node.0 < k
            → memo_at self.new.nodes k ≡ memo_at self.old.nodes k) }
    {
        if let Some(id) = self.nodes.get(node.0) {
            return Ok(Some(id));
        }
        let Some(link) = context.link(node) else {
            return Ok(None);
        };
        let parent = self.need_node(context, link.parent)?;
        let id = self.add_node(context, node, link, parent)?;
        Ok(Some(id))
    }

    /// Writes what an attribute needs, and gives the id of its node.
    #[inline(always)]
    pub(crate) fn need_attribute(
        &mut self,
        context: &Context,
        attribute: AttributeNumber,
    ) -> Result<u32, OutOfMemory>
        requires { attribute.0 < length context.now.attributes }
        ensures needs { IfOk result (NeedsAttribute context.now self.old self.new attribute) }
        ensures nodes { OnOk result (self.new.nodes ≡ self.old.nodes) }
    {
        if let Some(id) = self.attributes.get(attribute.0) {
            return Ok(id);
        }
        self.describe(context, attribute)
    }

    /// Writes what an attribute that isn't known needs, and gives the id of its node.
    #[inline(never)]
    fn describe(
        &mut self,
        context: &Context,
        attribute: AttributeNumber,
    ) -> Result<u32, OutOfMemory>
        requires { attribute.0 < length context.now.attributes }
        ensures needs { IfOk result (NeedsAttribute context.now self.old self.new attribute) }
        ensures nodes { OnOk result (self.new.nodes ≡ self.old.nodes) }
    {
        let described = context.attribute_at(attribute);
        let id = self.stream.describe(self.alloc, described)?;
        self.attributes.set(attribute.0, id)?;
        Ok(id)
    }

    /// Writes what a node's attribute needs, and the node's line where it is new, and notes its id.
    fn add_node(
        &mut self,
        context: &Context,
        node: NodeNumber,
        link: Link,
        parent: Option<u32>,
    ) -> Result<u32, OutOfMemory>
        requires linked { IsLinked context.now link node }
        requires unknown { memo_at self.old.nodes node.0 ≡ None }
        ensures adds { IfOk result (AddsNode context.now self.old self.new link node parent) }
        ensures others { OnOk result ((k : ℕ) → node.0 < k
            → memo_at self.new.nodes k ≡ memo_at self.old.nodes k) }
    {
        context.has_each_once();
        let attribute = self.need_attribute(context, link.attribute)?;
        let id = self.stream.add(
            self.alloc,
            parent,
            attribute,
            context.attribute_at(link.attribute),
            context.value_at(link.value),
        )?;
        self.nodes.set(node.0, id)?;
        Ok(id)
    }
}
