ghost use Rattle.std.specs.Prelude.{◌≡◌, ◌≤◌, [], ◌∷◌, ◌++◌, length, IfOk, OnOk};
ghost use Rattle.cal_rowset.specs.NumberedRows.{nth_numbered, numbered};

use cal_context::{Immediate, NodeNumber, Snapshot};
use cal_value::{OutOfMemory, TryCopy};
use std::alloc::Global;
use std::marker::Model;

/// Where the nodes and the immediates of a row lie among those of all rows.
#[derive(Clone, Copy, Debug)]
pub(crate) struct Extent {
    first_node: u32,
    nodes_end: u32,
    first_imm: u32,
    imms_end: u32,
}

/// Snapshots, one behind another: the nodes of all, and the immediates of all. So one takes no
/// block of memory of its own.
#[derive(Drop)]
pub struct SnapshotList {
    nodes: Vec<NodeNumber>,
    imms: Vec<Immediate>,
    extents: Vec<Extent>,
}

impl Model for SnapshotList {
    ghost use Rattle.std.specs.Prelude.{List, length, map};
    ghost use Rattle.std.specs.List.{All};
    ghost use Rattle.cal_rowset.specs.NumberedRows.{IsExtent, NumberedRow, row_at};

    ghost Value = { List NumberedRow };

    ghost view = { λ s. map (row_at s.nodes.items s.imms.items) s.extents.items };

    ghost invariant = { λ s. All (IsExtent (length s.nodes.items) (length s.imms.items))
        s.extents.items };
}

impl SnapshotList {
    /// No row. It takes no memory.
    pub fn new(alloc: Global) -> Self
        ensures { result ≡ [] }
    {
        SnapshotList {
            nodes: Vec::new(alloc),
            imms: Vec::new(alloc),
            extents: Vec::new(alloc),
        }
    }

    /// No row, and memory for so many of one node and so many immediates each.
    pub fn with_room(alloc: Global, rows: usize, width: usize) -> Result<Self, OutOfMemory>
        ensures { IfOk result (λ list. list ≡ []) }
    {
        Ok(SnapshotList {
            nodes: Vec::with_capacity(alloc, rows)?,
            imms: Vec::with_capacity(alloc, rows.saturating_mul(width))?,
            extents: Vec::with_capacity(alloc, rows)?,
        })
    }

    /// How many rows there are.
    pub fn len(&self) -> usize
        ensures { result ≡ length self.now }
    {
        self.extents.len()
    }

    /// Adds a copy of a row. 2^32 nodes or immediates are answered as want of memory is.
    pub fn push(&mut self, alloc: Global, row: &Snapshot) -> Result<(), OutOfMemory>
        ensures { OnOk result (self.new ≡ self.old ++ numbered row.now ∷ []) }
    {
        let first_node = number_of(self.nodes.len())?;
        let first_imm = number_of(self.imms.len())?;
        self.nodes.extend_from_slice(&row.nodes)?;
        add_copies(alloc, &mut self.imms, &row.imms)?;
        let nodes_end = number_of(self.nodes.len())?;
        let imms_end = number_of(self.imms.len())?;
        self.extents.push(Extent {
            first_node,
            nodes_end,
            first_imm,
            imms_end,
        })?;
        Ok(())
    }

    /// The nodes of the row at a place; past the end there are none.
    pub fn nodes(&self, place: usize) -> &[NodeNumber]
        ensures { result.now ≡ (nth_numbered self.now place).nodes }
    {
        match self.extents.get(place) {
            Some(e) => &self.nodes[e.first_node as usize..e.nodes_end as usize],
            None => &[],
        }
    }

    /// The immediates of the row at a place; past the end there are none.
    pub fn imms(&self, place: usize) -> &[Immediate]
        ensures { result.now ≡ (nth_numbered self.now place).imms }
    {
        match self.extents.get(place) {
            Some(e) => &self.imms[e.first_imm as usize..e.imms_end as usize],
            None => &[],
        }
    }

    /// Copies the row at a place, in place of the one that is there.
    pub fn copy_to(
        &self,
        alloc: Global,
        place: usize,
        row: &mut Snapshot,
    ) -> Result<(), OutOfMemory>
        ensures { OnOk result (numbered row.new ≡ nth_numbered self.now place) }
    {
        row.clear();
        row.nodes.extend_from_slice(self.nodes(place))?;
        add_copies(alloc, &mut row.imms, self.imms(place))
    }
}

// a place among all nodes or immediates
fn number_of(place: usize) -> Result<u32, OutOfMemory>
    ensures { IfOk result (λ number. number ≡ place) }
{
    match u32::try_from(place) {
        Ok(number) => Ok(number),
        Err(_) => Err(OutOfMemory),
    }
}

// adds copies of immediates
fn add_copies(
    alloc: Global,
    imms: &mut Vec<Immediate>,
    others: &[Immediate],
) -> Result<(), OutOfMemory>
    ensures more { length imms.old.items ≤ length imms.new.items }
    ensures added { OnOk result (imms.new.items ≡ imms.old.items ++ others.now) }
{
    for imm in others {
        imms.push(Immediate {
            attribute: imm.attribute,
            value: imm.value.copy(alloc)?,
        })?;
    }
    Ok(())
}
