ghost use Rattle.std.specs.Prelude.{◌≡◌, ℕ, ◌<◌, List, [], ◌∷◌, ◌++◌, length, None, IfOk, OnOk};
ghost use Rattle.std.specs.Prelude.{option_to_list};
ghost use Rattle.cal_value.specs.Flat.{flat};
ghost use Rattle.cal_value.specs.declared.record.Rec.{Rec};
ghost use Rattle.cal_context.specs.Snapshots.{IsIn, meaning};
ghost use Rattle.cal_context.specs.Taking.{TakesMore};
ghost use Rattle.cal_context.specs.Tree.{Tree};
ghost use Rattle.cal_rowset.specs.Filling.{Holds, names, nth_name};
ghost use Rattle.cal_tabfmt.specs.Expand.{expand_line, expand_lines, own_column, part_of};
ghost use Rattle.cal_tabfmt.specs.Parts.{HasParts};

use crate::hierarchy_cell::HierarchyCell;
use crate::part::append_part;
use crate::snapshot_cells::SnapshotCells;
use cal_context::{Context, Snapshot, Taker};
use cal_rowset::{Cells, is_path};
use cal_seeds::Seeds;
use cal_value::{OutOfMemory, Text};
use std::alloc::Global;

/// Writes the plain line of each record as it comes, by the record's own names. It keeps no record.
/// A record takes time in its text, and in those of its entries that aren't of the path before.
#[derive(Drop)]
pub struct ExpandWriter {
    text: Text,
    cells: SnapshotCells,
    hierarchy: HierarchyCell,
}

impl ExpandWriter {
    ghost use Rattle.cal_tabfmt.specs.Writer.{HasTaken};

    /// A writer of no line yet. It takes no memory. Names are hashed by numbers that everybody
    /// knows.
    pub fn new(alloc: Global) -> Self
        ensures { (t : Tree) → HasTaken result t [] }
    {
        ExpandWriter::seeded(alloc, Seeds::fixed())
    }

    /// A writer of no line yet, where names are hashed by the seeds of a run. It takes no memory.
    pub fn seeded(alloc: Global, seeds: Seeds) -> Self
        ensures { (t : Tree) → HasTaken result t [] }
    {
        ExpandWriter {
            text: Text::new(alloc),
            cells: SnapshotCells::new(alloc, seeds),
            hierarchy: HierarchyCell::new(alloc),
        }
    }

    /// The lines of what was taken. It takes no memory.
    pub fn finish(self) -> Text
        ensures { (t : Tree) (rows : List Rec) → HasTaken self t rows
            → result ≡ expand_lines None rows }
    {
        self.text
    }
}

impl Taker for ExpandWriter {
    ghost use Rattle.cal_tabfmt.specs.Writer.{HasTaken};
    ghost use Rattle.cal_tabfmt.specs.WriterGrows.{HasTaken-stays};

    ghost about = { λ _. tt };

    ghost has_taken = { HasTaken };

    /// Writes the next record's line. After an `Err` nothing is promised of the writer.
    fn take(&mut self, context: &Context, snapshot: &Snapshot) -> Result<(), OutOfMemory>
        requires { IsIn context.now snapshot.now }
        ensures { OnOk result (TakesMore
            (HasTaken self.old context.now)
            (HasTaken self.new context.now)
            (meaning context.now snapshot.now ∷ [])) }
    {
        self.cells.fill(context, snapshot)?;
        append_line(
            &mut self.text,
            &self.cells.trail,
            &mut self.hierarchy,
            context,
            snapshot,
        )
    }

    ghost stays = { HasTaken-stays };
}

/// Appends the line of a snapshot's record, whose entries a trail holds.
fn append_line(
    out: &mut Text,
    trail: &Cells,
    hierarchy: &mut HierarchyCell,
    context: &Context,
    snapshot: &Snapshot,
) -> Result<(), OutOfMemory>
    requires { IsIn context.now snapshot.now }
    ensures { OnOk result (Holds trail.now (flat (meaning context.now snapshot.now))
        → out.new ≡ out.old ++ (expand_line None (meaning context.now snapshot.now) ++ 10 ∷ [])) }
{
    let mut is_first = true;
    for place in trail.used() {
        is_first = append_place(out, is_first, trail, *place, hierarchy, context, snapshot)?;
    }
    out.push_str("\n")
}

/// Appends the part of the name at a place. The name `path` shows the hierarchy.
fn append_place(
    out: &mut Text,
    is_first: bool,
    trail: &Cells,
    place: usize,
    hierarchy: &mut HierarchyCell,
    context: &Context,
    snapshot: &Snapshot,
) -> Result<bool, OutOfMemory>
    requires { IsIn context.now snapshot.now }
    ensures { IfOk result (λ first. (before : List ℕ) (parts : List (List ℕ))
        → Holds trail.now (flat (meaning context.now snapshot.now))
        → place < length (names trail.now)
        → HasParts before out.old is_first parts → HasParts before out.new first
        (parts ++ option_to_list (part_of (meaning context.now snapshot.now)
        (own_column (nth_name (names trail.now) place))))) }
{
    let Some(name) = trail.names().get(place) else {
        return Ok(is_first);
    };
    if is_path(name) {
        hierarchy.show(context, snapshot)?;
        return append_part(out, is_first, name, &hierarchy.cell);
    }
    match trail.cells().get(place) {
        Some(cell) => append_part(out, is_first, name, cell),
        None => Ok(is_first),
    }
}
