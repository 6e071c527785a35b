ghost use Rattle.std.specs.Prelude.{◌≡◌, ◌<◌, ◌≤◌, [], ◌∷◌, ◌++◌, length, slice_index_or};
ghost use Rattle.std.specs.Prelude.{OnErr, OnOk, slice_range, take};
ghost use Rattle.cal_channel.specs.Traces.{ShownSnap, no_end};

use crate::ends::TraceEnd;
use crate::packed::EntryList;
use crate::{EntrySlice, ShownEntry, SnapDraft};
use cal_value::OutOfMemory;
use cal_words::NodeId;
use std::alloc::Global;
use std::marker::Model;

/// The snapshots of a channel, one behind another in flat lists, so that none owns memory.
#[derive(Drop)]
pub struct Trace {
    ends: Vec<TraceEnd>,
    nodes: Vec<NodeId>,
    entries: EntryList,
}

/// A snapshot of a trace.
#[derive(Drop)]
pub struct TraceSnap<'a> {
    pub nodes: &'a [NodeId],
    pub entries: EntrySlice<'a>,
}

impl Model for Trace {
    ghost use Rattle.std.specs.Prelude.{List};
    ghost use Rattle.cal_channel.specs.Traces.{CoverFrom, ShownSnap, no_end, snaps_from};

    ghost Value = { List ShownSnap };

    ghost view = { λ t. snaps_from t.nodes.items t.entries no_end t.ends.items };

    ghost invariant = { λ t. CoverFrom t.nodes.items t.entries no_end t.ends.items };
}

impl Trace {
    /// No snapshot. It takes no memory.
    pub fn new(alloc: Global) -> Trace
        ensures { result ≡ [] }
    {
        Trace {
            ends: Vec::new(alloc),
            nodes: Vec::new(alloc),
            entries: EntryList::new(alloc),
        }
    }

    /// How many snapshots there are.
    pub fn len(&self) -> usize
        ensures { result ≡ length self.now }
    {
        let _ = &self.nodes;
        let _ = &self.entries;
        self.ends.len()
    }

    /// The snapshot at a place, from 0.
    pub fn snap(&self, place: usize) -> TraceSnap<'_>
        requires { place < length self.now }
        ensures { (d : ShownSnap) → slice_index_or self.now place d
            ≡ record { nodes = result.nodes.now; entries = result.entries } }
    {
        let from = end_before(&self.ends, place);
        let to = end_at(&self.ends, place);
        TraceSnap {
            nodes: nodes_between(&self.nodes, from.nodes, to.nodes),
            entries: self.entries.between(from.entries, to.entries),
        }
    }

    /// Adds the snapshot of a draft. An `Err` leaves the snapshots as they were. It takes memory
    /// only where the lists grow, and for texts that aren't the script's.
    pub fn push(&mut self, alloc: Global, draft: &SnapDraft) -> Result<(), OutOfMemory>
        ensures added { OnOk result (self.new ≡ self.old
            ++ record { nodes = draft.now.nodes.items; entries = draft.now.entries.items } ∷ []) }
        ensures err { OnErr result (self.new ≡ self.old) }
    {
        let nodes = self.nodes.len();
        let entries = self.entries.len();
        match add(
            alloc,
            draft,
            &mut self.ends,
            &mut self.nodes,
            &mut self.entries,
        ) {
            Ok(()) => Ok(()),
            Err(OutOfMemory) => {
                self.nodes.truncate(nodes);
                self.entries.truncate(entries);
                Err(OutOfMemory)
            }
        }
    }
}

/// Adds the snapshot of a draft to the lists. An `Err` leaves the ends, and what stood before in
/// the others.
fn add(
    alloc: Global,
    draft: &SnapDraft,
    ends: &mut Vec<TraceEnd>,
    nodes: &mut Vec<NodeId>,
    entries: &mut EntryList,
) -> Result<(), OutOfMemory>
    ensures nodes { OnOk result (nodes.new.items ≡ nodes.old.items ++ draft.now.nodes.items) }
    ensures entries { OnOk result
        (entries.new ≡ entries.old ++ draft.now.entries.items) }
    ensures ends { OnOk result (ends.new.items ≡ ends.old.items ++ record {
      nodes = length nodes.new.items;
      entries = length entries.new;
    } ∷ []) }
    ensures err_nodes { OnErr result
        (take (length nodes.old.items) nodes.new.items ≡ nodes.old.items) }
    ensures err_entries { OnErr result
        (take (length entries.old) entries.new ≡ entries.old) }
    ensures err_ends { OnErr result (ends.new.items ≡ ends.old.items) }
{
    nodes.extend_from_slice(&draft.nodes)?;
    add_entries(alloc, &draft.entries, entries)?;
    ends.push(TraceEnd {
        nodes: nodes.len(),
        entries: entries.len(),
    })?;
    Ok(())
}

/// Adds copies of entries. An `Err` leaves what stood before.
fn add_entries(
    alloc: Global,
    more: &[ShownEntry],
    entries: &mut EntryList,
) -> Result<(), OutOfMemory>
    ensures ok { OnOk result (entries.new ≡ entries.old ++ more.now) }
    ensures err { OnErr result
        (take (length entries.old) entries.new ≡ entries.old) }
{
    for entry in more {
        entries.push(alloc, entry)?;
    }
    Ok(())
}

/// Where the snapshot at a place begins: at the end before it.
fn end_before(ends: &[TraceEnd], place: usize) -> TraceEnd
    requires { place ≤ length ends.now }
    ensures { result ≡ slice_index_or (no_end ∷ ends.now) place no_end }
{
    if place == 0 {
        TraceEnd {
            nodes: 0,
            entries: 0,
        }
    } else {
        end_at(ends, place - 1)
    }
}

/// The end of the snapshot at a place.
fn end_at(ends: &[TraceEnd], place: usize) -> TraceEnd
    requires { place < length ends.now }
    ensures { result ≡ slice_index_or ends.now place no_end }
{
    ends[place]
}

fn nodes_between(nodes: &[NodeId], from: usize, to: usize) -> &[NodeId]
    requires rises { from ≤ to }
    requires within { to ≤ length nodes.now }
    ensures { result.now ≡ slice_range nodes.now from to }
{
    &nodes[from..to]
}
