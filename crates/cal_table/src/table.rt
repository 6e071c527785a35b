ghost use Rattle.std.specs.Prelude.{◌≡◌, ◌+◌, ◌<◌, ◌≤◌, ◌^◌, [], ◌∷◌, length};
ghost use Rattle.std.specs.Prelude.{All, IfOk, IfErr, OnOk, OnErr};
ghost use Rattle.cal_context.specs.Lists.{AreApart};
ghost use Rattle.cal_table.specs.Numbering.{Added, MayAdd};
ghost use Rattle.cal_table.specs.Looks.{looks_at as looks_by};
ghost use Rattle.cal_table.specs.Rows.{rows_of};
ghost use Rattle.cal_table.specs.Snapshots.{HasNumberOf64, table_of};
ghost use Rattle.cal_table.specs.Tables.{Same, empty_table, merged_tables};

use crate::draft::Draft;
use crate::hints::Hints;
use crate::keys::as_slice;
use crate::putting::{add, pour};
use crate::{AttributeNumbers, TableKey, TableShape};
use cal_agg::AggRow;
use cal_seeds::Seeds;
use cal_snap::{NumberedSnap, Snap};
use cal_value::{OutOfMemory, TryCopy};
use indexmap::IndexSet;
use std::alloc::Global;
use std::marker::Model;
use std::mem;

/// For how many rows a table has room at most, behind one of which all were taken.
const ROWS_AT_FIRST: usize = 256;

/// What a thread keeps of its snapshots in place of them: of those with one key how many there are,
/// and of each value attribute the sum of their numbers and the ends.
#[derive(Drop)]
pub struct Table {
    shape: TableShape,
    keys: IndexSet<TableKey, Seeds>,
    rows: Vec<AggRow>,
    snapshots: u64,
    draft: Draft,
    hints: Hints,
}

/// The rows of a table: the keys, each once, and beside each what is held of its snapshots.
#[derive(Clone, Copy)]
pub struct TableRows<'a> {
    pub keys: &'a [TableKey],
    pub held: &'a [AggRow],
}

impl Model for Table {
    ghost use Rattle.std.specs.Prelude.{length};
    ghost use Rattle.cal_table.specs.Tables.{TableValue};
    ghost use Rattle.cal_table.specs.Rows.{rows_of};
    ghost use Rattle.cal_table.specs.Held.{AreHeld};

    ghost Value = { TableValue };

    ghost view = { λ t. record {
      shape = t.shape;
      rows = rows_of t.keys.keys t.rows.items;
      snapshots = t.snapshots;
    } };

    ghost invariant = { λ t.
        AreHeld (length t.shape.values) t.snapshots t.keys.keys t.rows.items };
}

impl Table {
    /// The table of a shape that stands for no snapshot. It takes memory for a copy of the shape.
    pub fn new(alloc: Global, shape: &TableShape) -> Result<Table, OutOfMemory>
        ensures { IfOk result (λ table. table ≡ empty_table shape.now) }
    {
        Ok(Table {
            shape: shape.copy(alloc)?,
            keys: IndexSet::with_hasher(alloc, Seeds::of(&shape.hashers)),
            rows: Vec::new(alloc),
            snapshots: 0,
            draft: Draft::new(alloc),
            hints: Hints::new(alloc),
        })
    }

    /// How many snapshots it stands for.
    pub fn snapshots(&self) -> u64
        ensures { result ≡ self.now.snapshots }
    {
        self.snapshots
    }

    /// Whether it looks at the entries of an attribute: the others may be left out of snapshots
    /// (`tables_look_at_few`).
    pub fn looks_at(&self, attribute: u32) -> bool
        ensures { result ≡ looks_by self.now.shape attribute }
    {
        self.shape.looks_at(attribute)
    }

    /// The rows.
    pub fn rows(&self) -> TableRows<'_>
        ensures rows { rows_of result.keys.now result.held.now ≡ self.now.rows }
        ensures long { length result.keys.now ≡ length result.held.now }
        ensures once { AreApart result.keys.now }
    {
        TableRows {
            keys: as_slice(&self.keys),
            held: self.rows.as_slice(),
        }
    }

    /// Adds a snapshot. An `Err` leaves the table. Where there is a row of the snapshot's key it
    /// takes one look-up, or none where that row was found at the snapshot's first node twice in a
    /// row; and no memory but for texts in the key.
    pub fn add_numbered(&mut self, snap: &NumberedSnap) -> Result<(), OutOfMemory>
        requires few { self.old.snapshots < 2 ^ 26 }
        requires numbers { All HasNumberOf64 snap.now.imms.items }
        ensures added { OnOk result
            (Same self.new (merged_tables self.old (table_of self.old.shape (snap.now ∷ [])))) }
        ensures err { OnErr result (self.new ≡ self.old) }
    {
        let alloc = *self.rows.allocator();
        self.draft.fill(alloc, &self.shape, snap)?;
        let Draft { key, row } = &self.draft;
        let near = self.hints.at(key);
        let number = add(alloc, &mut self.keys, &mut self.rows, near, key, row)?;
        self.hints.keep(key, number);
        self.snapshots += 1;
        Ok(())
    }

    /// Adds a snapshot whose entries own their attributes, by the numbers of these. An `Err` leaves
    /// the table. It takes one look-up more for each entry, and memory for the snapshot by numbers.
    pub fn add(&mut self, snap: &Snap, attrs: &AttributeNumbers) -> Result<(), OutOfMemory>
        requires few { self.old.snapshots < 2 ^ 26 }
        requires may { MayAdd attrs.now snap.now }
        ensures added { OnOk result (Added attrs.now snap.now self.old self.new) }
        ensures err { OnErr result (self.new ≡ self.old) }
    {
        let alloc = *self.rows.allocator();
        let numbered = attrs.numbered(alloc, snap)?;
        self.add_numbered(&numbered)?;
        Ok(())
    }

    /// Takes another table in: first it makes room for all rows, and then moves them, which can't
    /// fail. A table without rows becomes the other one. An `Err` is want of memory: it hands the other table back, and leaves both.
    pub fn merge(&mut self, other: Table) -> Result<(), Table>
        requires made { other.shape ≡ self.old.shape }
        requires few { self.old.snapshots + other.snapshots ≤ 2 ^ 26 }
        ensures merged { OnOk result (Same self.new (merged_tables self.old other)) }
        ensures refused { IfErr result (λ back. (back ≡ other) × (self.new ≡ self.old)) }
    {
        if self.rows.is_empty() {
            self.put_back(other);
            return Ok(());
        }
        let more = other.rows.len();
        if self.keys.reserve(more).is_err() || self.rows.reserve(more).is_err() {
            return Err(other);
        }
        let Table {
            shape: _,
            keys: more_keys,
            rows: more_rows,
            snapshots,
            draft: _,
            hints: _,
        } = other;
        pour(&mut self.keys, &mut self.rows, more_keys, more_rows);
        self.snapshots += snapshots;
        Ok(())
    }

    /// Takes all rows out, and leaves the table of the shape that stands for no snapshot. An `Err`
    /// leaves the table. It takes memory for a copy of the shape, and for some rows. Where rows were
    /// found last is still known: new ones often come to stand at the same places.
    pub fn take(&mut self) -> Result<Table, OutOfMemory>
        ensures taken { IfOk result (λ table. table ≡ self.old) }
        ensures empty { OnOk result (self.new ≡ empty_table self.old.shape) }
        ensures err { OnErr result (self.new ≡ self.old) }
    {
        let alloc = *self.rows.allocator();
        let mut empty = Table::new(alloc, &self.shape)?;
        let room = self.rows.len().min(ROWS_AT_FIRST);
        empty.keys.reserve(room)?;
        empty.rows.reserve(room)?;
        mem::swap(&mut self.hints, &mut empty.hints);
        Ok(mem::replace(self, empty))
    }

    /// Becomes another table, and drops what it was. It takes no memory. Where rows were found last
    /// is still known.
    pub fn put_back(&mut self, mut part: Table)
        ensures { self.new ≡ part }
    {
        mem::swap(&mut self.hints, &mut part.hints);
        *self = part;
    }
}
