ghost use Rattle.std.specs.Prelude.{◌≡◌, ◌<◌, List, [], length, slice_get, true, false};
ghost use Rattle.std.specs.Prelude.{is_none, IfOk, IsSomeAnd, MatchOption, OnOk, Some};
ghost use Rattle.std.specs.Prelude.{ℕ, None, slice_index_or};
ghost use Rattle.std.specs.List.{list_any};
ghost use Rattle.cal_value.specs.declared.attribute.Entry.{Entry};
ghost use Rattle.cal_value.specs.declared.record.Rec.{Rec};
ghost use Rattle.cal_context.specs.Lists.{IsFront};
ghost use Rattle.cal_rowset.specs.Cells.{is_path, shown_values, values};
ghost use Rattle.cal_rowset.specs.Filling.{Holds, Shows, names};
ghost use Rattle.cal_rowset.specs.Hierarchy.{hierarchy as hierarchy_of};
ghost use Rattle.cal_rowset.specs.Showing.{IsFor, IsPlaceOf, ShowsRow, nth_column};
ghost use Rattle.cal_rowset.specs.Standing.{HoldsNothing};
ghost use Rattle.cal_rowset.specs.Trails.{IsTrail};
ghost use Rattle.cal_rowset.specs.declared.rowset.Column.{Column};

use crate::{Cell, Cells, Column, is_path};
use cal_context::{Link, NodeNumber};
use cal_seeds::Seeds;
use cal_value::{OutOfMemory, Rec, Text};
use std::alloc::Global;

/// The cells of a row in the columns of an answer. Filled again, one serves for all rows, and each
/// takes time in its entries alone. After an `Err` nothing is promised of it.
#[derive(Drop)]
pub struct ShownRow {
    pub(crate) cells: Cells,
    pub(crate) hierarchy: Cell,
    // of each column the place of its name, unless it shows the hierarchy
    places: Vec<Option<usize>>,
    // whether some column shows the hierarchy, so that the cell for it is filled
    pub(crate) shows_path: bool,
    // of each attribute of a context the place of its name, where it has one
    pub(crate) attributes: Vec<Option<usize>>,
    // the node of a context whose path the cells hold first, and how many entries that adds
    pub(crate) node: NodeNumber,
    pub(crate) depth: usize,
    // the links of one path
    pub(crate) links: Vec<Link>,
}

impl ShownRow {
    /// The cells of these columns, without a row. Names are hashed by numbers that everybody knows.
    pub fn new(alloc: Global, columns: &[Column]) -> Result<Self, OutOfMemory>
        ensures for_columns { IfOk result (λ shown. IsFor shown columns.now) }
        ensures empty { IfOk result HoldsNothing }
    {
        ShownRow::seeded(alloc, columns, Seeds::fixed())
    }

    /// The cells of these columns, without a row, where names are hashed by the seeds of a run.
    pub fn seeded(alloc: Global, columns: &[Column], seeds: Seeds) -> Result<Self, OutOfMemory>
        ensures for_columns { IfOk result (λ shown. IsFor shown columns.now) }
        ensures empty { IfOk result HoldsNothing }
    {
        let mut cells = Cells::seeded(alloc, seeds);
        let mut places = Vec::new(alloc);
        place_columns(&mut cells, &mut places, columns)?;
        let shows_path = has_none(&places);
        Ok(ShownRow {
            cells,
            hierarchy: Cell::new(alloc),
            places,
            shows_path,
            attributes: Vec::new(alloc),
            node: NodeNumber::ROOT,
            depth: 0,
            links: Vec::new(alloc),
        })
    }

    /// Shows a row, in place of the one before.
    pub fn fill(&mut self, row: &Rec) -> Result<(), OutOfMemory>
        ensures { OnOk result ((columns : List Column) → IsFor self.old columns
            → ShowsRow self.new columns row.now) }
    {
        self.cells.fill(row)?;
        show_path(&mut self.hierarchy, self.shows_path, row)
    }

    /// The cell in a column.
    pub fn cell(&self, column: usize) -> Option<&Cell>
        ensures { (columns : List Column) (row : Rec) → ShowsRow self.now columns row
            → column < length columns
            → IsSomeAnd result (λ cell. Shows cell.now
            (shown_values row (nth_column columns column).name)) }
    {
        match self.places.as_slice().get(column)? {
            None => Some(&self.hierarchy),
            Some(place) => self.cells.cells().get(*place),
        }
    }
}

// shows a row's hierarchy, if a column shows it
fn show_path(hierarchy: &mut Cell, shows_path: bool, row: &Rec) -> Result<(), OutOfMemory>
    ensures { OnOk result (shows_path ≡ true
        → Shows hierarchy.new (values (hierarchy_of row.now))) }
{
    if shows_path {
        hierarchy.show_hierarchy(row)
    } else {
        Ok(())
    }
}

fn has_none(places: &[Option<usize>]) -> bool
    ensures { result ≡ list_any is_none places.now }
{
    places.iter().any(|place| place.is_none())
}

// the places of the names of columns
fn place_columns(
    cells: &mut Cells,
    places: &mut Vec<Option<usize>>,
    columns: &[Column],
) -> Result<(), OutOfMemory>
    requires holds { Holds cells.old [] }
    requires trail { IsTrail cells.old [] }
    requires empty { places.old.items ≡ [] }
    ensures holds { OnOk result (Holds cells.new []) }
    ensures trail { OnOk result (IsTrail cells.new []) }
    ensures counted { OnOk result (length places.new.items ≡ length columns.now) }
    ensures placed { OnOk result ((k : ℕ) → k < length columns.now → IsPlaceOf (names cells.new)
        (nth_column columns.now k).name (slice_index_or places.new.items k None)) }
{
    for column in columns {
        places.push(place_of(cells, &column.name)?)?;
    }
    Ok(())
}

// the place of a name, unless it is the hierarchy's
fn place_of(cells: &mut Cells, name: &Text) -> Result<Option<usize>, OutOfMemory>
    ensures place { IfOk result (λ place. IsPlaceOf (names cells.new) name.now place) }
    ensures front { OnOk result (IsFront (names cells.old) (names cells.new)) }
    ensures holds { OnOk result ((entries : List Entry)
        → Holds cells.old entries → Holds cells.new entries) }
    ensures trail { OnOk result (IsTrail cells.old [] → IsTrail cells.new []) }
{
    if is_path(name) {
        return Ok(None);
    }
    Ok(Some(cells.learn(name)?))
}
