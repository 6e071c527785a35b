ghost use Rattle.std.specs.Prelude.{◌≡◌, ◌<◌, [], ◌∷◌, length, IfOk, IfSome, IfNone, OnErr};
ghost use Rattle.cal_context.specs.Tree.{attribute_at, path_at, value_at, Grows, IsContext};
ghost use Rattle.cal_context.specs.Children.{AddsAttribute, AddsChild, AddsLinked, AddsValue};
ghost use Rattle.cal_context.specs.Children.{CanLink, IsLinked};

use crate::links::Links;
use crate::{AttributeNumber, Interner, Link, NodeNumber, ValueNumber};
use cal_seeds::Seeds;
use cal_value::{Attribute, OutOfMemory, Variant};
use std::alloc::Global;
use std::marker::Model;

/// Attributes, values and nodes by numbers, each once.
#[derive(Drop)]
pub struct Context {
    attributes: Interner<Attribute>,
    values: Interner<Variant>,
    // of each node but the root
    links: Links,
    seeds: Seeds,
}

impl Model for Context {
    ghost use Rattle.cal_context.specs.Tree.{Tree};
    ghost use Rattle.cal_context.specs.Links.{tree_of, IsWhole};

    ghost Value = { Tree };

    ghost view = { λ s. tree_of s.attributes s.values s.links };

    ghost invariant = { λ s. IsWhole (tree_of s.attributes s.values s.links) s.links };
}

impl Context {
    /// The root alone. It takes no memory. Its maps hash by numbers that everybody knows.
    pub fn new(alloc: Global) -> Self
        ensures { result ≡ record { attributes = []; values = []; paths = [] ∷ [] } }
    {
        Context::seeded(alloc, Seeds::fixed())
    }

    /// The root alone, where the maps hash by the seeds of a run. It takes no memory.
    pub fn seeded(alloc: Global, seeds: Seeds) -> Self
        ensures { result ≡ record { attributes = []; values = []; paths = [] ∷ [] } }
    {
        Context {
            attributes: Interner::seeded(alloc, seeds),
            values: Interner::seeded(alloc, seeds),
            links: Links::new(alloc, seeds),
            seeds,
        }
    }

    /// By what the maps of this context hash, and those of whoever stands over it may too.
    pub fn seeds(&self) -> Seeds {
        self.seeds
    }

    /// The number of an attribute, which is copied where it is new.
    pub fn attribute(&mut self, attribute: &Attribute) -> Result<AttributeNumber, OutOfMemory>
        ensures added { IfOk result (AddsAttribute self.old attribute.now self.new) }
        ensures grows { Grows self.old self.new }
        ensures err { OnErr result (self.new ≡ self.old) }
    {
        let _ = &self.values;
        let _ = &self.links;
        Ok(AttributeNumber(self.attributes.intern_copy(attribute)?))
    }

    /// The number of a value, which is copied where it is new.
    pub fn value(&mut self, value: &Variant) -> Result<ValueNumber, OutOfMemory>
        ensures added { IfOk result (AddsValue self.old value.now self.new) }
        ensures grows { Grows self.old self.new }
        ensures err { OnErr result (self.new ≡ self.old) }
    {
        let _ = &self.attributes;
        let _ = &self.links;
        Ok(ValueNumber(self.values.intern_copy(value)?))
    }

    /// The node that hangs by this link, which is added where it is new: one look-up.
    pub fn child_by_number(&mut self, link: Link) -> Result<NodeNumber, OutOfMemory>
        requires { CanLink self.old link }
        ensures added { IfOk result (AddsLinked self.old link self.new) }
        ensures grows { Grows self.old self.new }
        ensures err { OnErr result (self.new ≡ self.old) }
    {
        let _ = &self.attributes;
        let _ = &self.values;
        let index = self.links.intern(link)?;
        Ok(NodeNumber(index + 1))
    }

    /// The child of a node by an attribute and a value, which are added where they are new.
    pub fn child(
        &mut self,
        parent: NodeNumber,
        attribute: AttributeNumber,
        value: &Variant,
    ) -> Result<NodeNumber, OutOfMemory>
        requires parent { parent.0 < length self.old.paths }
        requires attribute { attribute.0 < length self.old.attributes }
        ensures added { IfOk result (AddsChild self.old parent attribute value.now self.new) }
        ensures grows { Grows self.old self.new }
        ensures err { OnErr result (self.new ≡ self.old) }
    {
        let _ = &self.attributes;
        let values = self.values.as_slice().len();
        let link = Link {
            parent,
            attribute,
            value: ValueNumber(self.values.intern_copy(value)?),
        };
        let Ok(index) = self.links.intern(link) else {
            self.values.truncate(values);
            return Err(OutOfMemory);
        };
        Ok(NodeNumber(index + 1))
    }

    /// How a node hangs in the tree; the root hangs nowhere.
    pub fn link(&self, node: NodeNumber) -> Option<Link>
        requires { node.0 < length self.now.paths }
        ensures linked { IfSome result (λ link. IsLinked self.now link node) }
        ensures root { IfNone result ((node.0 ≡ 0) × (path_at self.now node ≡ [])) }
    {
        let _ = &self.attributes;
        let _ = &self.values;
        let index = node.0.checked_sub(1)?;
        Some(self.links.as_slice()[index as usize])
    }

    /// The attribute of a number.
    pub fn attribute_at(&self, number: AttributeNumber) -> &Attribute
        requires { number.0 < length self.now.attributes }
        ensures { result.now ≡ attribute_at self.now number }
    {
        let _ = &self.values;
        let _ = &self.links;
        &self.attributes.as_slice()[number.0 as usize]
    }

    /// The value of a number.
    pub fn value_at(&self, number: ValueNumber) -> &Variant
        requires { number.0 < length self.now.values }
        ensures { result.now ≡ value_at self.now number }
    {
        let _ = &self.attributes;
        let _ = &self.links;
        &self.values.as_slice()[number.0 as usize]
    }

    /// The number of attributes, which is the number that the next new one gets.
    pub fn attribute_count(&self) -> usize
        ensures { result ≡ length self.now.attributes }
    {
        let _ = &self.values;
        let _ = &self.links;
        self.attributes.as_slice().len()
    }

    /// The number of values.
    pub fn value_count(&self) -> usize
        ensures { result ≡ length self.now.values }
    {
        let _ = &self.attributes;
        let _ = &self.links;
        self.values.as_slice().len()
    }

    /// The number of nodes, the root among them.
    pub fn node_count(&self) -> usize
        ensures { result ≡ length self.now.paths }
    {
        let _ = &self.attributes;
        let _ = &self.values;
        self.links.as_slice().len() + 1
    }

    /// Equal paths are one node and different paths different ones, and no item has two numbers.
    pub fn has_each_once(&self)
        ensures { IsContext self.now }
    {
        let _ = &self.attributes;
        let _ = &self.values;
        let _ = &self.links;
    }
}
