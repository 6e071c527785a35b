ghost use Rattle.std.specs.Prelude.{◌≡◌, ◌<◌, length, map, replicate, None, Some, IfOk, OnOk};
ghost use Rattle.cal_value.specs.declared.record.Rec.{Rec};
ghost use Rattle.cal_rowset.specs.Showing.{ShowsRow};
ghost use Rattle.cal_jsonfmt.specs.Choosing.{AreFor, AreKeysOf, AreWithin, members_of};
ghost use Rattle.cal_jsonfmt.specs.Choosing.{value_at, with_choice};
ghost use Rattle.cal_jsonfmt.specs.Json.{members, row_json};
ghost use Rattle.cal_jsonfmt.specs.Writing.{WritesValue};

use crate::keys::Keys;
use crate::members::{cell_at, write_object};
use cal_rowset::{Column, ShownRow};
use cal_value::OutOfMemory;
use json::Writer;
use std::alloc::Global;

/// The objects of rows in some columns. One serves for any number of rows, and each takes time in
/// the columns and in its own text.
#[derive(Drop)]
pub(crate) struct Objects {
    pub(crate) keys: Keys,
    // of each key the last column with this header whose cell is there
    pub(crate) chosen: Vec<Option<usize>>,
}

impl Objects {
    pub(crate) fn new(alloc: Global, columns: &[Column]) -> Result<Self, OutOfMemory>
        ensures { IfOk result (λ objects. AreFor objects columns.now) }
    {
        Ok(Objects {
            keys: Keys::new(alloc, columns)?,
            chosen: Vec::new(alloc),
        })
    }

    /// Writes the object of a row, which is shown in these columns.
    pub(crate) fn write(
        &mut self,
        writer: &mut Writer,
        columns: &[Column],
        shown: &ShownRow,
    ) -> Result<(), OutOfMemory>
        requires { AreFor self.old columns.now }
        ensures stays { AreFor self.new columns.now }
        ensures written { OnOk result ((row : Rec) → ShowsRow shown.now columns.now row
            → WritesValue writer.old writer.new (row_json columns.now row)) }
    {
        choose_none(&mut self.chosen, self.keys.names.len())?;
        choose(&mut self.chosen, columns, &self.keys, shown);
        write_object(writer, columns, &self.keys.names, &self.chosen, shown)
    }
}

/// Chooses none for so many keys, in place of what was chosen for the row before.
fn choose_none(chosen: &mut Vec<Option<usize>>, count: usize) -> Result<(), OutOfMemory>
    ensures { OnOk result (chosen.new.items ≡ replicate count None) }
{
    chosen.clear();
    for _key in 0..count {
        chosen.push(None)?;
    }
    Ok(())
}

/// Chooses of the columns with one key the last one whose cell is there.
fn choose(chosen: &mut Vec<Option<usize>>, columns: &[Column], keys: &Keys, shown: &ShownRow)
    requires keys { AreKeysOf keys.now columns.now }
    requires none { chosen.old.items ≡ replicate (length keys.now.names.items) None }
    ensures counted { length chosen.new.items ≡ length keys.now.names.items }
    ensures within { AreWithin columns.now chosen.new.items }
    ensures members { (row : Rec) → ShowsRow shown.now columns.now row
        → members_of keys.now.names.items (map (value_at columns.now row) chosen.new.items)
        ≡ members columns.now row }
{
    for column in 0..columns.len() {
        choose_column(chosen, columns, column, keys.place(column), shown);
    }
}

/// Chooses a column for the key at a place, if its cell is there.
fn choose_column(
    chosen: &mut Vec<Option<usize>>,
    columns: &[Column],
    column: usize,
    place: usize,
    shown: &ShownRow,
)
    requires column { column < length columns.now }
    requires place { place < length chosen.old.items }
    ensures counted { length chosen.new.items ≡ length chosen.old.items }
    ensures within { AreWithin columns.now chosen.old.items
        → AreWithin columns.now chosen.new.items }
    ensures chosen { (row : Rec) → ShowsRow shown.now columns.now row → chosen.new.items
        ≡ with_choice chosen.old.items place column (value_at columns.now row (Some column)) }
{
    match cell_at(columns, column, shown) {
        Some(_cell) => chosen[place] = Some(column),
        None => (),
    }
}
