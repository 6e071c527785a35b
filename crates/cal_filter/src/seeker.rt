//! Looks for the last entry of a name among numbered snapshots.
ghost use Rattle.std.specs.Prelude.{◌≡◌, ◌<◌, ◌^◌, false, length, slice_get, IsTrue};
ghost use Rattle.std.specs.Prelude.{None, Some, OnOk};
ghost use Rattle.cal_context.specs.Tree.{Tree, attribute_at, path_at};
ghost use Rattle.cal_context.specs.declared.numbers.AttributeNumber as attribute_numbers;
ghost use Rattle.cal_context.specs.declared.numbers.NodeNumber as node_numbers;
ghost use Rattle.cal_filter.specs.Known.{IsNearest, Knows, KnowsAll, KnowsAttributes, named_at};
ghost use Rattle.cal_filter.specs.Known.{nearest_at, sought};
ghost use Rattle.cal_filter.specs.Latest.{KnowsAllNames, place_for};
ghost use Rattle.cal_filter.specs.Sought.{any_of, last_sought, number_of};
ghost use Rattle.cal_filter.specs.Sought.{seeks as is_sought, whole_of};

use crate::latest::Latest;
use crate::wanted::Wanted;
use crate::{AttributeMemo, NodeMemo};
use cal_context::{AttributeNumber, Context, NodeNumber};
use cal_value::{OutOfMemory, Text, Variant};
use std::alloc::Global;

/// Looks for the last entry of a name that is wanted, over snapshots by number. What it found out
/// about an attribute or a node it keeps beside its number.
#[derive(Drop)]
pub struct Seeker {
    name: Text,
    wanted: Wanted,
    // of each attribute: whether it has the name
    named: AttributeMemo,
    // of each node: the nearest one at or above it whose entry is sought, or else the root
    nearest: NodeMemo,
}

impl Seeker {
    /// Looks for the last number of a name, and knows nothing yet. It takes no memory.
    pub fn of_number(alloc: Global, name: Text) -> Seeker
        ensures sought { sought result ≡ number_of name }
        ensures knows { (t : Tree) → Knows t result }
    {
        Seeker::new(alloc, name, Wanted::Number)
    }

    /// The same of the last whole number.
    pub fn of_whole(alloc: Global, name: Text) -> Seeker
        ensures sought { sought result ≡ whole_of name }
        ensures knows { (t : Tree) → Knows t result }
    {
        Seeker::new(alloc, name, Wanted::Whole)
    }

    /// The same of the last value, whatever it is.
    pub fn of_any(alloc: Global, name: Text) -> Seeker
        ensures sought { sought result ≡ any_of name }
        ensures knows { (t : Tree) → Knows t result }
    {
        Seeker::new(alloc, name, Wanted::Any)
    }

    /// A seeker that knows nothing yet. It takes no memory.
    pub(crate) fn new(alloc: Global, name: Text, wanted: Wanted) -> Seeker
        ensures sought { sought result ≡ record { name = name; wanted = wanted } }
        ensures knows { (t : Tree) → Knows t result }
    {
        Seeker {
            name,
            wanted,
            named: AttributeMemo::new(alloc),
            nearest: NodeMemo::new(alloc),
        }
    }

    /// Whether it looks for the last number of this name.
    pub fn is_of_number(&self, name: &Text) -> bool
        ensures is { IsTrue result → sought self.now ≡ number_of name.now }
        ensures only { sought self.now ≡ number_of name.now → IsTrue result }
    {
        matches!(self.wanted, Wanted::Number) && self.name == *name
    }

    /// Gets to know what is new in a context. Where nothing is sought in any path, new nodes take
    /// no time.
    #[inline(always)]
    pub fn catch_up(&mut self, context: &Context) -> Result<(), OutOfMemory>
        ensures knows { OnOk result (Knows context.now self.old → KnowsAll context.now self.new) }
        ensures same { OnOk result (sought self.new ≡ sought self.old) }
    {
        self.know_new_attributes(context)?;
        self.know_new_nodes(context)
    }

    /// The same where the attributes' names have numbers, and the name that is sought has this one:
    /// no name is compared.
    pub(crate) fn catch_up_by_number(
        &mut self,
        context: &Context,
        latest: &Latest,
        name: usize,
    ) -> Result<(), OutOfMemory>
        ensures knows { OnOk result (KnowsAllNames context.now latest.now
            → slice_get latest.now.names.keys name ≡ Some self.old.name
            → Knows context.now self.old → KnowsAll context.now self.new) }
        ensures same { OnOk result (sought self.new ≡ sought self.old) }
    {
        self.know_numbered_attributes(latest, name)?;
        self.know_new_nodes(context)
    }

    #[inline(always)]
    fn know_new_nodes(&mut self, context: &Context) -> Result<(), OutOfMemory>
        ensures knows { OnOk result
            (KnowsAttributes context.now self.old → KnowsAll context.now self.new) }
        ensures same { OnOk result (sought self.new ≡ sought self.old) }
    {
        if self.sees_nothing() {
            return self.pass_nodes(context);
        }
        self.know_nodes(context)
    }

    fn know_numbered_attributes(&mut self, latest: &Latest, name: usize) -> Result<(), OutOfMemory>
        ensures knows { OnOk result ((t : Tree) → KnowsAllNames t latest.now
            → slice_get latest.now.names.keys name ≡ Some self.old.name
            → Knows t self.old → KnowsAttributes t self.new) }
        ensures same { OnOk result (sought self.new ≡ sought self.old) }
    {
        latest.tell(name, &mut self.named)?;
        Ok(())
    }

    /// Gets to know the attributes, where there are new ones.
    #[inline(always)]
    fn know_new_attributes(&mut self, context: &Context) -> Result<(), OutOfMemory>
        ensures knows { OnOk result
            (Knows context.now self.old → KnowsAttributes context.now self.new) }
        ensures same { OnOk result (sought self.new ≡ sought self.old) }
    {
        if context.attribute_count() <= self.named.len() {
            return Ok(());
        }
        self.know_attributes(context)
    }

    #[inline(never)]
    fn know_attributes(&mut self, context: &Context) -> Result<(), OutOfMemory>
        ensures knows { OnOk result
            (Knows context.now self.old → KnowsAttributes context.now self.new) }
        ensures same { OnOk result (sought self.new ≡ sought self.old) }
    {
        for place in self.named.len()..context.attribute_count() {
            let Ok(number) = u32::try_from(place) else {
                return Err(OutOfMemory);
            };
            let attribute = context.attribute_at(AttributeNumber(number));
            let named = attribute.name == self.name;
            self.named.push(named)?;
        }
        Ok(())
    }

    #[inline(never)]
    fn know_nodes(&mut self, context: &Context) -> Result<(), OutOfMemory>
        ensures knows { OnOk result
            (KnowsAttributes context.now self.old → KnowsAll context.now self.new) }
        ensures same { OnOk result (sought self.new ≡ sought self.old) }
    {
        for place in self.nearest.len()..context.node_count() {
            let Ok(number) = u32::try_from(place) else {
                return Err(OutOfMemory);
            };
            let nearest = self.nearest_to(context, NodeNumber(number));
            self.nearest.push(nearest)?;
        }
        Ok(())
    }

    /// The same where nothing is sought in any path that is known, and no attribute has the name.
    #[inline(always)]
    fn pass_nodes(&mut self, context: &Context) -> Result<(), OutOfMemory>
        requires unnamed { (a : attribute_numbers.AttributeNumber) → named_at self.old a ≡ false }
        requires nowhere { (n : node_numbers.NodeNumber)
            → nearest_at self.old n ≡ record { 0 = 0 } }
        ensures knows { OnOk result
            (KnowsAttributes context.now self.old → KnowsAll context.now self.new) }
        ensures same { OnOk result (sought self.new ≡ sought self.old) }
    {
        context.has_each_once();
        let count = context.node_count();
        if count > u32::MAX as usize {
            return Err(OutOfMemory);
        }
        self.finds_none(context);
        self.nearest.put_roots(count);
        Ok(())
    }

    /// Nothing is sought in any path, where no attribute has the name. The loop is there for the
    /// proof alone, and no code is left of it.
    #[inline(always)]
    fn finds_none(&self, context: &Context)
        requires few { length context.now.paths < 2 ^ 32 }
        requires unnamed { (a : attribute_numbers.AttributeNumber) → named_at self.now a ≡ false }
        requires nowhere { (n : node_numbers.NodeNumber)
            → nearest_at self.now n ≡ record { 0 = 0 } }
        ensures { KnowsAttributes context.now self.now → (n : node_numbers.NodeNumber)
            → n.0 < length context.now.paths
            → last_sought (sought self.now) (path_at context.now n) ≡ None }
    {
        context.has_each_once();
        for place in self.nearest.len()..context.node_count() {
            self.finds_none_at(context, NodeNumber(place as u32));
        }
    }

    /// The same on one path, where nothing is sought on those of the nodes before.
    #[inline(always)]
    fn finds_none_at(&self, context: &Context, node: NodeNumber)
        requires within { node.0 < length context.now.paths }
        requires unnamed { (a : attribute_numbers.AttributeNumber) → named_at self.now a ≡ false }
        ensures { KnowsAttributes context.now self.now
            → ((n : node_numbers.NodeNumber) → n.0 < node.0
            → last_sought (sought self.now) (path_at context.now n) ≡ None)
            → last_sought (sought self.now) (path_at context.now node) ≡ None }
    {
        match context.link(node) {
            Some(_link) => {}
            None => {}
        }
    }

    /// The nearest node at or above the first one that isn't known.
    fn nearest_to(&self, context: &Context, node: NodeNumber) -> NodeNumber
        requires within { node.0 < length context.now.paths }
        requires next { node.0 ≡ length self.now.nearest }
        ensures { KnowsAttributes context.now self.now
            → IsNearest context.now (sought self.now) node result }
    {
        let Some(link) = context.link(node) else {
            return NodeNumber::ROOT;
        };
        if self.seeks(context, link.attribute, context.value_at(link.value)) {
            node
        } else {
            self.nearest(link.parent)
        }
    }

    /// Whether an entry is sought.
    pub(crate) fn seeks(
        &self,
        context: &Context,
        attribute: AttributeNumber,
        value: &Variant,
    ) -> bool
        requires { attribute.0 < length context.now.attributes }
        ensures { KnowsAttributes context.now self.now → result ≡ is_sought (sought self.now)
            (record { attr = attribute_at context.now attribute; value = value.now }) }
    {
        self.is_named(attribute)
            && self
                .wanted
                .passes(context.attribute_at(attribute).kind, value)
    }

    /// Where the last immediate that is sought stands, if its name has this number.
    #[inline(always)]
    pub(crate) fn place(&self, name: usize, latest: &Latest) -> Option<usize>
        ensures { result ≡ place_for latest.now self.now.wanted name }
    {
        latest.place(&self.wanted, name)
    }

    fn is_named(&self, attribute: AttributeNumber) -> bool
        ensures { result ≡ named_at self.now attribute }
    {
        self.named.get(attribute)
    }

    /// Whether no attribute that is known has the name.
    pub(crate) fn is_unnamed(&self) -> bool
        ensures { IsTrue result
            → (a : attribute_numbers.AttributeNumber) → named_at self.now a ≡ false }
    {
        self.named.is_none()
    }

    /// Whether no attribute that is known has the name, and no node a sought entry on its path.
    pub(crate) fn sees_nothing(&self) -> bool
        ensures unnamed { IsTrue result
            → (a : attribute_numbers.AttributeNumber) → named_at self.now a ≡ false }
        ensures nowhere { IsTrue result
            → (n : node_numbers.NodeNumber) → nearest_at self.now n ≡ record { 0 = 0 } }
    {
        self.named.is_none() && self.nearest.is_none()
    }

    /// The nearest node at or above a node that is known.
    pub(crate) fn nearest(&self, node: NodeNumber) -> NodeNumber
        ensures { result ≡ nearest_at self.now node }
    {
        self.nearest.get(node)
    }
}
