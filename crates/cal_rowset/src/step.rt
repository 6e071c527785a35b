ghost use Rattle.std.specs.Prelude.{◌≡◌, ℕ, ◌<◌, List, length, slice_set};
ghost use Rattle.std.specs.Str.{IsUtf8};
ghost use Rattle.cal_rowset.specs.Filling.{is_nothing, nth_cell, with_use};
ghost use Rattle.cal_rowset.specs.Trails.{CanUndo, undone};

use crate::{Cell, Content};

/// At which place a cell took a value, and how it was before.
#[derive(Clone, Copy, Debug)]
pub(crate) struct Step {
    pub(crate) place: usize,
    pub(crate) length: usize,
    pub(crate) content: Content,
}

/// How a cell is before it takes a value.
pub(crate) fn step_at(place: usize, cell: &Cell) -> Step
    ensures step { result
        ≡ record { place = place; length = length cell.now.text; content = cell.now.content } }
    ensures text { IsUtf8 cell.now.text }
{
    Step {
        place,
        length: cell.text.as_str().len(),
        content: cell.content,
    }
}

/// Makes the cell of a step as it was before.
pub(crate) fn undo_at(cells: &mut Vec<Cell>, step: &Step)
    ensures { step.now.place < length cells.old.items
        → CanUndo step.now (nth_cell cells.old.items step.now.place)
        → cells.new.items ≡ slice_set cells.old.items step.now.place
        (undone step.now (nth_cell cells.old.items step.now.place)) }
{
    if step.place < cells.len() {
        undo(&mut cells[step.place], step);
    }
}

// makes a cell as it was before a step
fn undo(cell: &mut Cell, step: &Step)
    ensures { CanUndo step.now cell.old → cell.new ≡ undone step.now cell.old }
{
    if cell.text.as_str().is_char_boundary(step.length) {
        cell.text.truncate(step.length);
    }
    cell.content = step.content;
}

/// Takes away the use that a step has noted.
pub(crate) fn undo_use(used: &mut Vec<usize>, step: &Step)
    ensures { (before : List ℕ)
        → used.old.items ≡ with_use (is_nothing step.now.content) before step.now.place
        → used.new.items ≡ before }
{
    if matches!(step.content, Content::Nothing) {
        let _ = used.pop();
    }
}
