ghost use Rattle.std.specs.Prelude.{◌≡◌, ◌+◌, ◌<◌, List, [], ◌∷◌, ◌++◌, length, map, OnOk};
ghost use Rattle.std.specs.List.{All};
ghost use Rattle.cal_value.specs.Flat.{flat, joined};
ghost use Rattle.cal_value.specs.declared.attribute.Entry.{Entry};
ghost use Rattle.cal_context.specs.Snapshots.{IsIn, entry_of, meaning};
ghost use Rattle.cal_context.specs.Tree.{Tree, path_at};
ghost use Rattle.cal_rowset.specs.Filling.{names};
ghost use Rattle.cal_rowset.specs.Links.{IsEntryOf, link_entry};
ghost use Rattle.cal_rowset.specs.Trails.{IsTrail};
ghost use Rattle.cal_tabfmt.specs.Snapshots.{AreFilled, AreReady, KnowsAll, KnowsPlaces};
ghost use Rattle.cal_tabfmt.specs.Snapshots.{StandAt, StandKnowing};

use crate::walk::walk;
use cal_context::{AttributeNumber, Context, Immediate, Link, NodeNumber, Snapshot};
use cal_rowset::{Cells, find_links};
use cal_seeds::Seeds;
use cal_value::{OutOfMemory, Variant};
use std::alloc::Global;

/// The cells of a record that comes as a snapshot, by its names. They hold the path of the record's
/// first node first, and of this the next record keeps what it has in common.
#[derive(Drop)]
pub(crate) struct SnapshotCells {
    pub(crate) trail: Cells,
    // of each attribute the place of its name
    places: Vec<usize>,
    // the node whose path the trail holds first, and how long that is
    node: NodeNumber,
    depth: usize,
    // the links of one path
    links: Vec<Link>,
}

impl SnapshotCells {
    // Names are hashed by these seeds.
    pub(crate) fn new(alloc: Global, seeds: Seeds) -> Self
        ensures { (t : Tree) → AreReady t result }
    {
        SnapshotCells {
            trail: Cells::seeded(alloc, seeds),
            places: Vec::new(alloc),
            node: NodeNumber::ROOT,
            depth: 0,
            links: Vec::new(alloc),
        }
    }

    /// Holds the record that a snapshot means.
    pub(crate) fn fill(&mut self, context: &Context, snapshot: &Snapshot) -> Result<(), OutOfMemory>
        requires { IsIn context.now snapshot.now }
        ensures { OnOk result (AreReady context.now self.old
            → AreFilled context.now self.new (flat (meaning context.now snapshot.now))) }
    {
        self.begin(context);
        self.learn(context)?;
        self.add_paths(context, &snapshot.nodes)?;
        add_immediates(&mut self.trail, &self.places, context, &snapshot.imms)
    }

    // gives up all but the path of the first node
    fn begin(&mut self, context: &Context)
        ensures within { self.new.node.0 < length context.now.paths }
        ensures stand { AreReady context.now self.old → StandAt context.now self.new }
    {
        context.has_each_once();
        if self.node.0 as usize >= context.node_count() {
            self.leave();
        } else {
            self.trail.keep(self.depth);
        }
    }

    // gives up all
    fn leave(&mut self)
        ensures node { self.new.node.0 ≡ 0 }
        ensures depth { self.new.depth ≡ 0 }
        ensures places { self.new.places ≡ self.old.places }
        ensures names { names self.new.trail ≡ names self.old.trail }
        ensures trail { (entries : List Entry) → IsTrail self.old.trail entries
            → IsTrail self.new.trail [] }
    {
        self.trail.keep(0);
        self.node = NodeNumber::ROOT;
        self.depth = 0;
    }

    // learns the names of the context's attributes
    fn learn(&mut self, context: &Context) -> Result<(), OutOfMemory>
        requires { self.old.node.0 < length context.now.paths }
        ensures within { self.new.node.0 < length context.now.paths }
        ensures stand { OnOk result (StandAt context.now self.old
            → StandKnowing context.now self.new) }
    {
        if self.places.len() >= context.attribute_count() {
            return Ok(());
        }
        context.has_each_once();
        self.leave();
        learn_attributes(context, &mut self.trail, &mut self.places)?;
        Ok(())
    }

    // adds the paths of nodes
    fn add_paths(&mut self, context: &Context, nodes: &[NodeNumber]) -> Result<(), OutOfMemory>
        requires from { self.old.node.0 < length context.now.paths }
        requires nodes { All (λ n. n.0 < length context.now.paths) nodes.now }
        ensures { OnOk result (StandKnowing context.now self.old
            → AreFilled context.now self.new (joined (map (path_at context.now) nodes.now))) }
    {
        context.has_each_once();
        match nodes.split_first() {
            Some((first, others)) => {
                self.go(context, *first)?;
                add_nodes(
                    &mut self.trail,
                    &self.places,
                    context,
                    others,
                    &mut self.links,
                )
            }
            None => {
                self.go(context, NodeNumber::ROOT)?;
                Ok(())
            }
        }
    }

    // holds the path of a node, and keeps what it has in common with the one before
    fn go(&mut self, context: &Context, node: NodeNumber) -> Result<(), OutOfMemory>
        requires from { self.old.node.0 < length context.now.paths }
        requires to { node.0 < length context.now.paths }
        ensures node { OnOk result (self.new.node ≡ node) }
        ensures stand { OnOk result (StandKnowing context.now self.old
            → StandKnowing context.now self.new) }
    {
        walk(context, &mut self.trail, self.node, node, &mut self.links)?;
        add_links(&mut self.trail, &self.places, context, &self.links)?;
        self.node = node;
        self.depth = self.trail.count();
        Ok(())
    }
}

// learns the names of the attributes behind those whose places are known
fn learn_attributes(
    context: &Context,
    trail: &mut Cells,
    places: &mut Vec<usize>,
) -> Result<(), OutOfMemory>
    ensures holds { OnOk result (IsTrail trail.old [] → IsTrail trail.new []) }
    ensures knows { OnOk result (KnowsPlaces context.now (names trail.old) places.old.items
        → KnowsAll context.now (names trail.new) places.new.items) }
{
    for number in places.len()..context.attribute_count() {
        learn_attribute(context, number, trail, places)?;
    }
    Ok(())
}

// A context has fewer than 2^32 attributes.
fn learn_attribute(
    context: &Context,
    number: usize,
    trail: &mut Cells,
    places: &mut Vec<usize>,
) -> Result<(), OutOfMemory>
    requires { number < length context.now.attributes }
    ensures counted { OnOk result (length places.new.items ≡ length places.old.items + 1) }
    ensures holds { OnOk result (IsTrail trail.old [] → IsTrail trail.new []) }
    ensures knows { OnOk result (length places.old.items ≡ number
        → KnowsPlaces context.now (names trail.old) places.old.items
        → KnowsPlaces context.now (names trail.new) places.new.items) }
{
    let Ok(number) = u32::try_from(number) else {
        return Err(OutOfMemory);
    };
    let attribute = context.attribute_at(AttributeNumber(number));
    let place = trail.learn(&attribute.name)?;
    places.push(place)?;
    Ok(())
}

fn add_nodes(
    trail: &mut Cells,
    places: &[usize],
    context: &Context,
    nodes: &[NodeNumber],
    links: &mut Vec<Link>,
) -> Result<(), OutOfMemory>
    requires { All (λ n. n.0 < length context.now.paths) nodes.now }
    ensures names { names trail.new ≡ names trail.old }
    ensures added { OnOk result ((entries : List Entry)
        → KnowsAll context.now (names trail.old) places.now → IsTrail trail.old entries
        → IsTrail trail.new (entries ++ joined (map (path_at context.now) nodes.now))) }
{
    for node in nodes {
        find_links(context, *node, links)?;
        add_links(trail, places, context, links)?;
    }
    Ok(())
}

fn add_links(
    trail: &mut Cells,
    places: &[usize],
    context: &Context,
    links: &[Link],
) -> Result<(), OutOfMemory>
    requires { All (IsEntryOf context.now) links.now }
    ensures names { names trail.new ≡ names trail.old }
    ensures added { OnOk result ((entries : List Entry)
        → KnowsAll context.now (names trail.old) places.now → IsTrail trail.old entries
        → IsTrail trail.new (entries ++ map (link_entry context.now) links.now)) }
{
    for link in links {
        let value = context.value_at(link.value);
        add_entry(trail, places, context, link.attribute, value)?;
    }
    Ok(())
}

fn add_immediates(
    trail: &mut Cells,
    places: &[usize],
    context: &Context,
    imms: &[Immediate],
) -> Result<(), OutOfMemory>
    requires { All (λ i. i.attribute.0 < length context.now.attributes) imms.now }
    ensures names { names trail.new ≡ names trail.old }
    ensures added { OnOk result ((entries : List Entry)
        → KnowsAll context.now (names trail.old) places.now → IsTrail trail.old entries
        → IsTrail trail.new (entries ++ map (entry_of context.now) imms.now)) }
{
    for imm in imms {
        add_entry(trail, places, context, imm.attribute, &imm.value)?;
    }
    Ok(())
}

fn add_entry(
    trail: &mut Cells,
    places: &[usize],
    context: &Context,
    attribute: AttributeNumber,
    value: &Variant,
) -> Result<(), OutOfMemory>
    requires { attribute.0 < length context.now.attributes }
    ensures names { names trail.new ≡ names trail.old }
    ensures added { OnOk result ((entries : List Entry)
        → KnowsAll context.now (names trail.old) places.now → IsTrail trail.old entries → IsTrail trail.new
        (entries ++ entry_of context.now
        (record { attribute = attribute; value = value.now }) ∷ [])) }
{
    match places.get(attribute.0 as usize) {
        Some(place) => trail.add(*place, value),
        None => Ok(()),
    }
}
