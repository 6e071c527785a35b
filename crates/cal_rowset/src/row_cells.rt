ghost use Rattle.std.specs.Prelude.{◌≡◌, List, [], ◌∷◌, ◌++◌, filter, OnOk};
ghost use Rattle.cal_value.specs.Flat.{flat};
ghost use Rattle.cal_value.specs.declared.attribute.Entry.{Entry};
ghost use Rattle.cal_value.specs.declared.variant.Variant.{Variant};
ghost use Rattle.cal_rowset.specs.Cells.{values};
ghost use Rattle.cal_rowset.specs.Filling.{Holds, Shows, names};
ghost use Rattle.cal_rowset.specs.Hierarchy.{hierarchy, is_of_hierarchy};
ghost use Rattle.cal_rowset.specs.Known.{known_entries};

use crate::{Cell, Cells, is_of_hierarchy};
use cal_value::{Entry, OutOfMemory, Rec};

impl Cells {
    /// Holds, in place of the row before, those entries of a row whose names are known.
    pub fn fill(&mut self, row: &Rec) -> Result<(), OutOfMemory>
        ensures names { names self.new ≡ names self.old }
        ensures filled { OnOk result ((before : List Entry) → Holds self.old before
            → Holds self.new (known_entries (names self.old) (flat row.now))) }
    {
        self.clear();
        for entry in row.flat() {
            self.add_known(entry)?;
        }
        Ok(())
    }

    // adds an entry, if its name is known
    fn add_known(&mut self, entry: &Entry) -> Result<(), OutOfMemory>
        ensures names { names self.new ≡ names self.old }
        ensures added { OnOk result ((before : List Entry) → Holds self.old before
            → Holds self.new (before ++ known_entries (names self.old) (entry.now ∷ []))) }
    {
        match self.place(&entry.attr.name) {
            Some(place) => self.add(place, &entry.value),
            None => Ok(()),
        }
    }

    /// Holds, in place of the row before, all entries of a row; new names are learned.
    pub fn fill_all(&mut self, row: &Rec) -> Result<(), OutOfMemory>
        ensures { OnOk result ((before : List Entry) → Holds self.old before
            → Holds self.new (flat row.now)) }
    {
        self.clear();
        for entry in row.flat() {
            self.add_learned(entry)?;
        }
        Ok(())
    }

    fn add_learned(&mut self, entry: &Entry) -> Result<(), OutOfMemory>
        ensures { OnOk result ((before : List Entry) → Holds self.old before
            → Holds self.new (before ++ entry.now ∷ [])) }
    {
        let place = self.learn(&entry.attr.name)?;
        self.add(place, &entry.value)
    }
}

impl Cell {
    /// Shows the hierarchy of a row, in place of what it showed.
    pub fn show_hierarchy(&mut self, row: &Rec) -> Result<(), OutOfMemory>
        ensures { OnOk result (Shows self.new (values (hierarchy row.now))) }
    {
        self.clear();
        for path in row.paths.as_slice() {
            self.push_path(path.as_slice())?;
        }
        Ok(())
    }

    fn push_path(&mut self, path: &[Entry]) -> Result<(), OutOfMemory>
        ensures { OnOk result ((vs : List Variant) → Shows self.old vs → Shows self.new
            (vs ++ values (filter (λ e. is_of_hierarchy e.attr) path.now))) }
    {
        for entry in path {
            self.push_nested(entry)?;
        }
        Ok(())
    }

    fn push_nested(&mut self, entry: &Entry) -> Result<(), OutOfMemory>
        ensures { OnOk result ((vs : List Variant) → Shows self.old vs → Shows self.new
            (vs ++ values (filter (λ e. is_of_hierarchy e.attr) (entry.now ∷ [])))) }
    {
        if !is_of_hierarchy(&entry.attr) {
            return Ok(());
        }
        self.push(&entry.value)
    }
}
