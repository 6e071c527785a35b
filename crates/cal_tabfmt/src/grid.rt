ghost use Rattle.std.specs.Prelude.{◌≡◌, ◌+◌, ◌<◌, ◌++◌, List, ℕ, length, slice_index_or};
ghost use Rattle.std.specs.Prelude.{IfOk, OnOk};
ghost use Rattle.cal_tabfmt.specs.Ends.{HasLine, front_of_line, gap};
ghost use Rattle.cal_tabfmt.specs.Grid.{grid_line, placed};

use crate::ends::{added, append_text};
use crate::shape::{Shape, width};
use cal_value::{OutOfMemory, Text};

/// Appends a line of texts in columns, of which none holds a newline.
pub fn append_line(out: &mut Text, shapes: &[Shape], texts: &[Text]) -> Result<(), OutOfMemory>
    ensures { OnOk result (out.new ≡ out.old ++ grid_line shapes.now texts.now) }
{
    let mut pending = 0;
    for (place, text) in texts.iter().enumerate() {
        pending = append_column(out, pending, place, shapes, text.as_str())?;
    }
    out.push_str("\n")
}

/// Appends the text at a place of a line, if there is such a column.
pub(crate) fn append_column(
    out: &mut Text,
    pending: usize,
    place: usize,
    shapes: &[Shape],
    text: &str,
) -> Result<usize, OutOfMemory>
    ensures { IfOk result (λ left. (before : List ℕ) (texts : List (List ℕ))
        → place < length texts → text.now ≡ slice_index_or texts place text.now
        → HasLine before out.old pending (front_of_line shapes.now texts place)
        → HasLine before out.new left (front_of_line shapes.now texts (place + 1))) }
{
    match shapes.get(place) {
        Some(shape) => append_behind_gap(out, pending, place, *shape, text),
        None => Ok(pending),
    }
}

/// Appends a text in its column, and before it a space where it isn't the first.
fn append_behind_gap(
    out: &mut Text,
    pending: usize,
    place: usize,
    shape: Shape,
    text: &str,
) -> Result<usize, OutOfMemory>
    ensures { IfOk result (λ left. (before line : List ℕ) → HasLine before out.old pending line
        → HasLine before out.new left (line ++ (gap place ++ placed shape text.now))) }
{
    if place == 0 {
        return append_placed(out, pending, shape, text);
    }
    let behind = added(pending, 1)?;
    append_placed(out, behind, shape, text)
}

/// Appends a text where it stands in its column.
fn append_placed(
    out: &mut Text,
    pending: usize,
    shape: Shape,
    text: &str,
) -> Result<usize, OutOfMemory>
    ensures { IfOk result (λ left. (before line : List ℕ) → HasLine before out.old pending line
        → HasLine before out.new left (line ++ placed shape text.now)) }
{
    let room = shape.width.saturating_sub(width(text));
    if shape.right {
        let behind = added(pending, room)?;
        return append_text(out, behind, text);
    }
    let left = append_text(out, pending, text)?;
    added(left, room)
}
