ghost use Rattle.std.specs.Prelude.{◌≡◌, List, IfOk, All};
ghost use Rattle.cal_value.specs.WellFormed.{IsPath};
ghost use Rattle.cal_once.specs.Seats.{view};
ghost use Rattle.cal_once.specs.Views.{Learns};
ghost use Rattle.cal_tree.specs.Paths.{NodeEntry, entries_of};
ghost use Rattle.cal_tree.specs.Seats.{CanSpell, IsPathOf, IsTreeSeat, slots_of};
ghost use Rattle.cal_tree.specs.Snapshots.{IsExpanded};

use crate::{Tree, TreeSeat};
use cal_snap::Snap;
use cal_value::{Attribute, Entry, OutOfMemory, Rec, Seq, TryCopy};
use cal_words::{Node, NodeId};
use std::alloc::Global;

impl Tree {
    /// The path of a node below the root, the outermost entry first, with attributes by their
    /// numbers in `attrs`. It takes time and memory in the entries and their texts.
    pub fn path(
        &self,
        alloc: Global,
        seat: &mut TreeSeat,
        attrs: &Seq<Attribute>,
        node: NodeId,
    ) -> Result<Seq<Entry>, OutOfMemory>
        requires seat { IsTreeSeat self.now seat.old }
        requires known { CanSpell self.now seat.old attrs.now node.0 }
        ensures seat { IsTreeSeat self.now seat.new }
        ensures learns { Learns (view seat.old) (view seat.new) }
        ensures path { IfOk result (λ entries. (path : List NodeEntry) →
            IsPathOf self.now seat.new path node.0 → entries ≡ entries_of attrs.now path) }
        ensures is_path { IfOk result IsPath }
    {
        let depth = self.depth(seat, node);
        let mut words = Vec::new(alloc);
        let mut entries = Vec::new(alloc);
        let mut at = node;
        for _step in 0..depth {
            let found = self.node(alloc, seat, at, &mut words)?;
            let Node {
                parent,
                depth: _,
                attr,
                value,
            } = found;
            entries.push(Entry {
                attr: attrs.as_slice()[attr as usize].copy(alloc)?,
                value,
            })?;
            at = parent;
        }
        entries.reverse();
        Ok(Seq::from_vec(entries))
    }

    /// The record that a snapshot means: the path of each node, and the immediates. It takes time
    /// and memory in the entries and their texts.
    pub fn expand(
        &self,
        alloc: Global,
        seat: &mut TreeSeat,
        attrs: &Seq<Attribute>,
        snap: &Snap,
    ) -> Result<Rec, OutOfMemory>
        requires seat { IsTreeSeat self.now seat.old }
        requires known { All (λ node. CanSpell self.now seat.old attrs.now node.0) snap.now.refs }
        ensures seat { IsTreeSeat self.now seat.new }
        ensures learns { Learns (view seat.old) (view seat.new) }
        ensures record { IfOk result (λ rec.
            IsExpanded (slots_of self.now) (view seat.new) attrs.now snap.now rec) }
    {
        let mut paths = Vec::with_capacity(alloc, snap.refs.len())?;
        for node in snap.refs.as_slice() {
            paths.push(self.path(alloc, seat, attrs, *node)?)?;
        }
        Ok(Rec {
            paths: Seq::from_vec(paths),
            imms: snap.imms.copy(alloc)?,
        })
    }
}
