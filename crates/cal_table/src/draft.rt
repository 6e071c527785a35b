ghost use Rattle.std.specs.Prelude.{◌≡◌, [], ◌∷◌, filter, pos, All, OnOk};
ghost use Rattle.cal_agg.specs.Rows.{cell_over};
ghost use Rattle.cal_table.specs.Snapshots.{HasNumberOf64, held_over, is_flagged as flagged};
ghost use Rattle.cal_table.specs.Snapshots.{numbers_of};
ghost use Rattle.cal_table.specs.Snapshots.{key_of as key_by, last_number as last_among};

use crate::shape::flag_at;
use crate::{KeyNodes, TableKey, TableShape};
use cal_agg::{AggRow, Cell, Cells, Count, Kernel, Num};
use cal_filter::number_in;
use cal_snap::{NumberedEntry, NumberedSnap};
use cal_value::{OutOfMemory, Seq, TryCopy};
use std::alloc::Global;

/// The key and the row of the snapshot that is added. Filled again, its memory serves for the next
/// one.
#[derive(Drop)]
pub(crate) struct Draft {
    pub(crate) key: TableKey,
    pub(crate) row: AggRow,
}

impl Draft {
    /// No snapshot. It takes no memory.
    pub(crate) fn new(alloc: Global) -> Draft {
        Draft {
            key: TableKey {
                refs: KeyNodes::new(),
                imms: Seq::new(alloc),
            },
            row: AggRow {
                count: Count::start(),
                cells: Cells::new(),
            },
        }
    }

    /// Becomes that of a snapshot. It takes memory where the last one had less.
    pub(crate) fn fill(
        &mut self,
        alloc: Global,
        shape: &TableShape,
        snap: &NumberedSnap,
    ) -> Result<(), OutOfMemory>
        requires { All HasNumberOf64 snap.now.imms.items }
        ensures key { OnOk result (self.new.key ≡ key_by shape.now snap.now) }
        ensures row { OnOk result (self.new.row ≡ held_over shape.now (snap.now ∷ [])) }
    {
        self.key.refs.refill(alloc, &snap.refs)?;
        fill_imms(alloc, &mut self.key.imms, &shape.keys, &snap.imms)?;
        self.row.count = one();
        fill_cells(alloc, &mut self.row.cells, shape, snap)
    }
}

/// Becomes the entries whose attributes are keys.
fn fill_imms(
    alloc: Global,
    kept: &mut Seq<NumberedEntry>,
    keys: &Seq<bool>,
    imms: &[NumberedEntry],
) -> Result<(), OutOfMemory>
    ensures { OnOk result (kept.new ≡ filter (flagged keys.now) imms.now) }
{
    clear(kept);
    for entry in imms {
        if is_flagged(keys, entry) {
            kept.push(entry.copy(alloc)?)?;
        }
    }
    Ok(())
}

/// Becomes the cells of the value attributes.
fn fill_cells(
    alloc: Global,
    cells: &mut Cells,
    shape: &TableShape,
    snap: &NumberedSnap,
) -> Result<(), OutOfMemory>
    requires { All HasNumberOf64 snap.now.imms.items }
    ensures { OnOk result (cells.new ≡ (held_over shape.now (snap.now ∷ [])).cells) }
{
    cells.clear();
    for flags in shape.values.as_slice() {
        cells.push(alloc, cell_of(flags, snap))?;
    }
    Ok(())
}

/// Takes all entries away, and keeps the memory.
fn clear(entries: &mut Seq<NumberedEntry>)
    ensures { entries.new ≡ [] }
{
    while entries.pop().is_some() {}
}

/// The count of one snapshot.
fn one() -> Count
    ensures { result ≡ pos 1 }
{
    let mut count = Count::start();
    count.add(Num::Whole(1));
    count
}

/// The cell of a value attribute: of the last number of a snapshot, or of none.
fn cell_of(flags: &Seq<bool>, snap: &NumberedSnap) -> Cell
    requires { All HasNumberOf64 snap.now.imms.items }
    ensures { result ≡ cell_over (numbers_of flags.now (snap.now ∷ [])) }
{
    let mut cell = Cell::start();
    if let Some(n) = last_number(flags, &snap.imms) {
        cell.add(n);
    }
    cell
}

/// The last number among the entries of a value attribute.
fn last_number(flags: &Seq<bool>, imms: &[NumberedEntry]) -> Option<Num>
    ensures { result ≡ last_among flags.now imms.now }
{
    let mut last = None;
    for entry in imms {
        if is_flagged(flags, entry) {
            last = number_in(&entry.value).or(last);
        }
    }
    last
}

/// Whether the attribute of an entry is flagged.
fn is_flagged(flags: &Seq<bool>, entry: &NumberedEntry) -> bool
    ensures { result ≡ flagged flags.now entry.now }
{
    flag_at(flags, entry.attribute)
}
