ghost use Rattle.std.specs.Prelude.{◌≡◌, ◌<◌, List, [], ◌∷◌, ◌++◌, length, map, IfOk, OnOk};
ghost use Rattle.std.specs.List.{All};
ghost use Rattle.cal_value.specs.Flat.{joined};
ghost use Rattle.cal_value.specs.declared.attribute.Entry.{Entry};
ghost use Rattle.cal_value.specs.declared.variant.Variant as variants;
ghost use Rattle.cal_context.specs.Snapshots.{entry_of};
ghost use Rattle.cal_context.specs.Tree.{attribute_at, path_at};
ghost use Rattle.cal_rowset.specs.Cells.{values};
ghost use Rattle.cal_rowset.specs.Filling.{Shows, names};
ghost use Rattle.cal_rowset.specs.Links.{IsEntryOf, link_entry};
ghost use Rattle.cal_rowset.specs.NumberedRows.{IsWithin, meant};
ghost use Rattle.cal_rowset.specs.Rooms.{AddsEntries, AddsPath, IsAlike, KnowsAttributes};
ghost use Rattle.cal_rowset.specs.Rooms.{IsNamedAt, KnowsEach, nested};
ghost use Rattle.cal_rowset.specs.Showing.{IsFor, ShowsRow};
ghost use Rattle.cal_rowset.specs.Standing.{IsFilledWith, StandsAt, StandsIn};
ghost use Rattle.cal_rowset.specs.Trails.{IsTrail};
ghost use Rattle.cal_rowset.specs.declared.rowset.Column as columns;

use crate::walk::walk;
use crate::{Cell, Cells, Column, ShownRow, find_links, is_of_hierarchy};
use cal_context::{AttributeNumber, Context, Immediate, Link, NodeNumber};
use cal_value::{Attribute, OutOfMemory, Variant};
use std::alloc::Global;

impl ShownRow {
    /// The cells of these columns, without a row, for snapshots of a context: each attribute's name
    /// is looked up once, for all rows.
    pub(crate) fn for_context(
        alloc: Global,
        columns: &[Column],
        context: &Context,
    ) -> Result<Self, OutOfMemory>
        ensures for_columns { IfOk result (λ shown. IsFor shown columns.now) }
        ensures stands { IfOk result (λ shown. StandsIn context.now shown) }
    {
        context.has_each_once();
        let mut shown = ShownRow::seeded(alloc, columns, context.seeds())?;
        shown.attributes = attribute_places(alloc, context, &shown.cells)?;
        Ok(shown)
    }

    /// Shows the record that nodes and immediates mean, in place of the row before, and keeps what
    /// the paths of their first nodes have in common.
    pub(crate) fn fill_numbered(
        &mut self,
        context: &Context,
        nodes: &[NodeNumber],
        imms: &[Immediate],
    ) -> Result<(), OutOfMemory>
        requires within { IsWithin context.now (record { nodes = nodes.now; imms = imms.now }) }
        requires stands { StandsIn context.now self.old }
        ensures stands { OnOk result (StandsIn context.now self.new) }
        ensures shows { OnOk result ((columns : List columns.Column) → IsFor self.old columns
            → ShowsRow self.new columns
            (meant context.now (record { nodes = nodes.now; imms = imms.now }))) }
    {
        self.begin(context);
        self.add_paths(context, nodes)?;
        self.add_immediates(context, imms)
    }

    // gives up all but the path of the first node, and that too if the hierarchy is shown
    fn begin(&mut self, context: &Context)
        requires { StandsIn context.now self.old }
        ensures alike { IsAlike self.old self.new }
        ensures stands { StandsAt context.now self.new }
    {
        context.has_each_once();
        self.hierarchy.clear();
        if self.shows_path {
            self.leave();
        } else {
            self.cells.keep(self.depth);
        }
    }

    // gives up all
    fn leave(&mut self)
        ensures alike { IsAlike self.old self.new }
        ensures hierarchy { self.new.hierarchy ≡ self.old.hierarchy }
        ensures node { self.new.node.0 ≡ 0 }
        ensures depth { self.new.depth ≡ 0 }
        ensures trail { (entries : List Entry) → IsTrail self.old.cells entries
            → IsTrail self.new.cells [] }
    {
        self.cells.keep(0);
        self.node = NodeNumber::ROOT;
        self.depth = 0;
    }

    // adds the paths of nodes
    fn add_paths(&mut self, context: &Context, nodes: &[NodeNumber]) -> Result<(), OutOfMemory>
        requires nodes { All (λ n. n.0 < length context.now.paths) nodes.now }
        requires stands { StandsAt context.now self.old }
        ensures alike { OnOk result (IsAlike self.old self.new) }
        ensures filled { OnOk result (IsFilledWith context.now self.new
            (joined (map (path_at context.now) nodes.now))) }
    {
        context.has_each_once();
        match nodes.split_first() {
            Some((first, others)) => {
                self.go(context, *first)?;
                self.add_nodes(context, others)
            }
            None => self.go(context, NodeNumber::ROOT),
        }
    }

    // adds the path of a node, and keeps what it has in common with the one before
    fn go(&mut self, context: &Context, node: NodeNumber) -> Result<(), OutOfMemory>
        requires node { node.0 < length context.now.paths }
        requires stands { StandsAt context.now self.old }
        ensures alike { OnOk result (IsAlike self.old self.new) }
        ensures filled { OnOk result (IsFilledWith context.now self.new
            (path_at context.now node)) }
    {
        context.has_each_once();
        walk(
            context,
            &mut self.cells,
            &self.attributes,
            self.node,
            node,
            &mut self.links,
        )?;
        self.add_links(context)?;
        self.node = node;
        self.depth = self.cells.count();
        Ok(())
    }

    // adds the paths of further nodes
    fn add_nodes(&mut self, context: &Context, nodes: &[NodeNumber]) -> Result<(), OutOfMemory>
        requires { All (λ n. n.0 < length context.now.paths) nodes.now }
        ensures { OnOk result (AddsPath context.now self.old self.new
            (joined (map (path_at context.now) nodes.now))) }
    {
        for node in nodes {
            find_links(context, *node, &mut self.links)?;
            self.add_links(context)?;
        }
        Ok(())
    }

    // adds the entries of the links that were found
    fn add_links(&mut self, context: &Context) -> Result<(), OutOfMemory>
        requires { All (IsEntryOf context.now) self.old.links.items }
        ensures { OnOk result (AddsPath context.now self.old self.new
            (map (link_entry context.now) self.old.links.items)) }
    {
        for place in 0..self.links.len() {
            let link = self.links[place];
            self.add_link(context, link)?;
        }
        Ok(())
    }

    fn add_link(&mut self, context: &Context, link: Link) -> Result<(), OutOfMemory>
        requires { IsEntryOf context.now link }
        ensures links { self.new.links ≡ self.old.links }
        ensures added { OnOk result (AddsPath context.now self.old self.new
            (link_entry context.now link ∷ [])) }
    {
        let value = context.value_at(link.value);
        if self.shows_path {
            push_nested(
                &mut self.hierarchy,
                context.attribute_at(link.attribute),
                value,
            )?;
        }
        self.add_entry(context, link.attribute, value)
    }

    fn add_immediates(&mut self, context: &Context, imms: &[Immediate]) -> Result<(), OutOfMemory>
        requires { All (λ i. i.attribute.0 < length context.now.attributes) imms.now }
        ensures { OnOk result (AddsEntries context.now self.old self.new
            (map (entry_of context.now) imms.now) []) }
    {
        for imm in imms {
            self.add_entry(context, imm.attribute, &imm.value)?;
        }
        Ok(())
    }

    // adds an entry to the cell of its name, if it has one
    fn add_entry(
        &mut self,
        context: &Context,
        attribute: AttributeNumber,
        value: &Variant,
    ) -> Result<(), OutOfMemory>
        requires { attribute.0 < length context.now.attributes }
        ensures links { self.new.links ≡ self.old.links }
        ensures hierarchy { self.new.hierarchy ≡ self.old.hierarchy }
        ensures added { OnOk result (AddsEntries context.now self.old self.new (entry_of context.now
            (record { attribute = attribute; value = value.now }) ∷ []) []) }
    {
        match self.place_of(context, attribute) {
            Some(place) => self.cells.add(place, value),
            None => Ok(()),
        }
    }

    // the place of an attribute's name, where it has one
    fn place_of(&self, context: &Context, attribute: AttributeNumber) -> Option<usize>
        requires { attribute.0 < length context.now.attributes }
        ensures { KnowsAttributes context.now self.now
            → IsNamedAt (names self.now.cells) (attribute_at context.now attribute).name result }
    {
        *self.attributes.as_slice().get(attribute.0 as usize)?
    }
}

// adds an entry to the hierarchy's cell, if it is of the hierarchy
fn push_nested(cell: &mut Cell, attribute: &Attribute, value: &Variant) -> Result<(), OutOfMemory>
    ensures { OnOk result ((before : List variants.Variant) → Shows cell.old before
        → Shows cell.new (before ++ values (nested
        (record { attr = attribute.now; value = value.now } ∷ [])))) }
{
    if !is_of_hierarchy(attribute) {
        return Ok(());
    }
    cell.push(value)
}

// of each attribute of a context the place of its name, where it has one
fn attribute_places(
    alloc: Global,
    context: &Context,
    cells: &Cells,
) -> Result<Vec<Option<usize>>, OutOfMemory>
    ensures { IfOk result (λ places. KnowsEach context.now (names cells.now) places.items) }
{
    let mut places = Vec::new(alloc);
    for number in 0..context.attribute_count() {
        places.push(attribute_place(context, number, cells)?)?;
    }
    Ok(places)
}

// A context has fewer than 2^32 attributes.
fn attribute_place(
    context: &Context,
    number: usize,
    cells: &Cells,
) -> Result<Option<usize>, OutOfMemory>
    requires { number < length context.now.attributes }
    ensures { IfOk result (λ place. IsNamedAt (names cells.now)
        (attribute_at context.now (record { 0 = number })).name place) }
{
    let Ok(number) = u32::try_from(number) else {
        return Err(OutOfMemory);
    };
    let attribute = context.attribute_at(AttributeNumber(number));
    Ok(cells.place(&attribute.name))
}
