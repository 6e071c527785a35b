ghost use Rattle.std.specs.Prelude.{◌≡◌, ◌<◌, List, [], ◌∷◌, ◌++◌, filter, length, map, OnOk};
ghost use Rattle.std.specs.List.{All};
ghost use Rattle.cal_value.specs.declared.variant.Variant.{Variant};
ghost use Rattle.cal_context.specs.Snapshots.{IsIn, meaning};
ghost use Rattle.cal_context.specs.Tree.{path_at};
ghost use Rattle.cal_rowset.specs.Cells.{values};
ghost use Rattle.cal_rowset.specs.Filling.{Shows};
ghost use Rattle.cal_rowset.specs.Hierarchy.{hierarchy, is_of_hierarchy};
ghost use Rattle.cal_rowset.specs.Links.{IsEntryOf, link_entry};

use cal_context::{Context, Link, NodeNumber, Snapshot};
use cal_rowset::{Cell, find_links, is_of_hierarchy};
use cal_value::OutOfMemory;
use std::alloc::Global;

/// The cell of a snapshot's hierarchy.
#[derive(Drop)]
pub(crate) struct HierarchyCell {
    pub(crate) cell: Cell,
    // the links of one path
    links: Vec<Link>,
}

impl HierarchyCell {
    pub(crate) fn new(alloc: Global) -> Self {
        HierarchyCell {
            cell: Cell::new(alloc),
            links: Vec::new(alloc),
        }
    }

    /// Shows the hierarchy of the record that a snapshot means.
    pub(crate) fn show(&mut self, context: &Context, snapshot: &Snapshot) -> Result<(), OutOfMemory>
        requires { IsIn context.now snapshot.now }
        ensures { OnOk result (Shows self.new.cell
            (values (hierarchy (meaning context.now snapshot.now)))) }
    {
        self.cell.clear();
        for node in &snapshot.nodes {
            self.push_node(context, *node)?;
        }
        Ok(())
    }

    fn push_node(&mut self, context: &Context, node: NodeNumber) -> Result<(), OutOfMemory>
        requires { node.0 < length context.now.paths }
        ensures { OnOk result ((vs : List Variant) → Shows self.old.cell vs → Shows self.new.cell
            (vs ++ values (filter (λ e. is_of_hierarchy e.attr) (path_at context.now node)))) }
    {
        find_links(context, node, &mut self.links)?;
        push_links(&mut self.cell, context, &self.links)
    }
}

fn push_links(cell: &mut Cell, context: &Context, links: &[Link]) -> Result<(), OutOfMemory>
    requires { All (IsEntryOf context.now) links.now }
    ensures { OnOk result ((vs : List Variant) → Shows cell.old vs → Shows cell.new (vs
        ++ values (filter (λ e. is_of_hierarchy e.attr) (map (link_entry context.now) links.now)))) }
{
    for link in links {
        push_link(cell, context, *link)?;
    }
    Ok(())
}

fn push_link(cell: &mut Cell, context: &Context, link: Link) -> Result<(), OutOfMemory>
    requires { IsEntryOf context.now link }
    ensures { OnOk result ((vs : List Variant) → Shows cell.old vs → Shows cell.new (vs
        ++ values (filter (λ e. is_of_hierarchy e.attr) (link_entry context.now link ∷ [])))) }
{
    if !is_of_hierarchy(context.attribute_at(link.attribute)) {
        return Ok(());
    }
    cell.push(context.value_at(link.value))
}
