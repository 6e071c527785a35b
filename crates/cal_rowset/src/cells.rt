ghost use Rattle.std.specs.Prelude.{◌≡◌, ℕ, ◌<◌, ◌≤◌, List, [], ◌∷◌, ◌++◌};
ghost use Rattle.std.specs.Prelude.{length, slice_get, take, IfNone, IfOk, IfSome, OnOk, Some};
ghost use Rattle.std.specs.List.{Contains};
ghost use Rattle.cal_value.specs.declared.attribute.Entry.{Entry};
ghost use Rattle.cal_context.specs.Lists.{Interns};
ghost use Rattle.cal_rowset.specs.Filling.{AreCleared, Holds, cells, is_nothing, names};
ghost use Rattle.cal_rowset.specs.Filling.{nth_cell, used, with_use};
ghost use Rattle.cal_rowset.specs.Trails.{IsTrail, steps};

use crate::step::{Step, step_at, undo_at, undo_use};
use crate::{Cell, Names};
use cal_seeds::Seeds;
use cal_value::{OutOfMemory, Text, Variant};
use std::alloc::Global;

/// The cells of one row, by the places of their names. Cleared and filled again, one serves for any
/// number of rows, and each takes time in its entries alone. The last entries can be given up again,
/// which takes time in their number. After an `Err` nothing is promised.
#[derive(Drop)]
pub struct Cells {
    alloc: Global,
    names: Names,
    cells: Vec<Cell>,
    // the places of the cells that aren't empty
    used: Vec<usize>,
    // of each entry where its value went, and how that cell was before
    steps: Vec<Step>,
}

impl Cells {
    /// No name, and no entry. It takes no memory. Names are hashed by numbers that everybody knows.
    pub fn new(alloc: Global) -> Self
        ensures no_name { names result ≡ [] }
        ensures no_entry { Holds result [] }
        ensures trail { IsTrail result [] }
    {
        Cells::seeded(alloc, Seeds::fixed())
    }

    /// No name, and no entry, where names are hashed by the seeds of a run. It takes no memory.
    pub fn seeded(alloc: Global, seeds: Seeds) -> Self
        ensures no_name { names result ≡ [] }
        ensures no_entry { Holds result [] }
        ensures trail { IsTrail result [] }
    {
        Cells {
            alloc,
            names: Names::seeded(alloc, seeds),
            cells: Vec::new(alloc),
            used: Vec::new(alloc),
            steps: Vec::new(alloc),
        }
    }

    /// The place of a name, which gets an empty cell where it is new.
    pub fn learn(&mut self, name: &Text) -> Result<usize, OutOfMemory>
        ensures learned { IfOk result (Interns (names self.old) name.now (names self.new)) }
        ensures holds { OnOk result ((entries : List Entry)
            → Holds self.old entries → Holds self.new entries) }
        ensures trail { OnOk result (IsTrail self.old [] → IsTrail self.new []) }
    {
        let place = self.names.learn(name)?;
        if place == self.cells.len() {
            self.cells.push(Cell::new(self.alloc))?;
        }
        Ok(place)
    }

    /// Adds the value of an entry of the name at a place; a place without a name takes nothing.
    pub fn add(&mut self, place: usize, value: &Variant) -> Result<(), OutOfMemory>
        ensures names { names self.new ≡ names self.old }
        ensures added { OnOk result ((entries : List Entry) (e : Entry) → Holds self.old entries
            → slice_get (names self.old) place ≡ Some e.attr.name → e.value ≡ value.now
            → Holds self.new (entries ++ e ∷ [])) }
        ensures trail { OnOk result ((entries : List Entry) (e : Entry) → IsTrail self.old entries
            → slice_get (names self.old) place ≡ Some e.attr.name → e.value ≡ value.now
            → IsTrail self.new (entries ++ e ∷ [])) }
    {
        if place >= self.cells.len() {
            return Ok(());
        }
        let step = step_at(place, &self.cells[place]);
        self.note_use(place)?;
        self.steps.push(step)?;
        self.cells[place].push(value)
    }

    // notes that a place is used, where its cell is empty
    fn note_use(&mut self, place: usize) -> Result<(), OutOfMemory>
        requires { place < length self.old.cells.items }
        ensures cells { self.new.cells.items ≡ self.old.cells.items }
        ensures names { self.new.names ≡ self.old.names }
        ensures steps { self.new.steps ≡ self.old.steps }
        ensures used { OnOk result (used self.new
            ≡ with_use (is_nothing (nth_cell (cells self.old) place).content)
            (used self.old) place) }
    {
        if self.cells[place].is_empty() {
            self.used.push(place)?;
        }
        Ok(())
    }

    /// The cells by the places of their names.
    pub fn cells(&self) -> &[Cell]
        ensures { result.now ≡ cells self.now }
    {
        &self.cells
    }

    /// The places of the cells that aren't empty, in the order in which they were first filled.
    pub fn used(&self) -> &[usize]
        ensures { result.now ≡ used self.now }
    {
        &self.used
    }

    /// The names by their places.
    pub fn names(&self) -> &[Text]
        ensures { result.now ≡ names self.now }
    {
        self.names.as_slice()
    }

    /// The place of a name, where it is known.
    pub fn place(&self, name: &Text) -> Option<usize>
        ensures found { IfSome result (λ place. slice_get (names self.now) place ≡ Some name.now) }
        ensures unknown { IfNone result (¬ Contains (names self.now) name.now) }
    {
        self.names.place(name)
    }

    /// Takes all entries away, and keeps the names.
    pub fn clear(&mut self)
        ensures names { names self.new ≡ names self.old }
        ensures cleared { (entries : List Entry) → Holds self.old entries → Holds self.new [] }
    {
        clear_used(&mut self.cells, &self.used);
        self.used.clear();
        self.steps.clear();
    }

    /// How many entries it holds.
    pub fn count(&self) -> usize
        ensures { (entries : List Entry) → IsTrail self.now entries → result ≡ length entries }
    {
        self.steps.len()
    }

    /// Gives up the last entries but for the first `count`.
    pub fn keep(&mut self, count: usize)
        ensures names { names self.new ≡ names self.old }
        ensures kept { (entries : List Entry) → IsTrail self.old entries
            → IsTrail self.new (take count entries) }
    {
        while self.steps.len() > count {
            self.back();
        }
    }

    /// Gives up the last entry.
    pub fn back(&mut self)
        ensures names { names self.new ≡ names self.old }
        ensures fewer { length (steps self.new) ≤ length (steps self.old) }
        ensures less { 0 < length (steps self.old)
            → length (steps self.new) < length (steps self.old) }
        ensures given { (entries : List Entry) (e : Entry) → IsTrail self.old (entries ++ e ∷ [])
            → IsTrail self.new entries }
    {
        let Some(step) = self.steps.pop() else {
            return;
        };
        undo_at(&mut self.cells, &step);
        undo_use(&mut self.used, &step);
    }
}

// clears the cells at these places
fn clear_used(cells: &mut Vec<Cell>, used: &[usize])
    ensures counted { length cells.new.items ≡ length cells.old.items }
    ensures cleared { AreCleared cells.old.items cells.new.items used.now }
{
    for place in used {
        clear_at(cells, *place);
    }
}

fn clear_at(cells: &mut Vec<Cell>, place: usize)
    ensures counted { length cells.new.items ≡ length cells.old.items }
    ensures cleared { AreCleared cells.old.items cells.new.items (place ∷ []) }
{
    if place < cells.len() {
        cells[place].clear();
    }
}
