ghost use Rattle.std.specs.Prelude.{◌≡◌, ℕ, List, [], ◌∷◌, ◌++◌, IfOk, OnOk};
ghost use Rattle.std.specs.Prelude.{option_map, option_to_list, if◌then◌else◌};
ghost use Rattle.cal_value.specs.declared.variant.Variant.{Variant};
ghost use Rattle.cal_rowset.specs.Cells.{cell_of};
ghost use Rattle.cal_rowset.specs.Filling.{Shows};
ghost use Rattle.cal_tabfmt.specs.Expand.{part};
ghost use Rattle.cal_tabfmt.specs.Parts.{HasParts, part_front};

use crate::written::append_written;
use cal_rowset::Cell;
use cal_value::{OutOfMemory, Text};

/// Appends the part of a cell to a line, or nothing where the cell is absent, and answers whether
/// the next part is the line's first.
pub(crate) fn append_part(
    out: &mut Text,
    is_first: bool,
    header: &Text,
    cell: &Cell,
) -> Result<bool, OutOfMemory>
    ensures { IfOk result (λ first. (before : List ℕ) (parts : List (List ℕ)) (vs : List Variant)
        → Shows cell.now vs → HasParts before out.old is_first parts → HasParts before out.new first
        (parts ++ option_to_list (option_map (part header.now) (cell_of vs)))) }
{
    if cell.is_empty() {
        return Ok(is_first);
    }
    append_comma(out, is_first)?;
    append_front(out, header)?;
    append_written(cell.text.as_str(), out)?;
    Ok(false)
}

/// The same behind a front that was written before.
pub(crate) fn append_behind(
    out: &mut Text,
    is_first: bool,
    front: &Text,
    cell: &Cell,
) -> Result<bool, OutOfMemory>
    ensures { IfOk result (λ first. (before : List ℕ) (parts : List (List ℕ)) (vs : List Variant)
        (header : List ℕ) → front.now ≡ part_front header → Shows cell.now vs
        → HasParts before out.old is_first parts → HasParts before out.new first
        (parts ++ option_to_list (option_map (part header) (cell_of vs)))) }
{
    if cell.is_empty() {
        return Ok(is_first);
    }
    append_comma(out, is_first)?;
    out.push_str(front.as_str())?;
    append_written(cell.text.as_str(), out)?;
    Ok(false)
}

/// Appends what stands before the text of each part in a column.
pub(crate) fn append_front(out: &mut Text, header: &Text) -> Result<(), OutOfMemory>
    ensures { OnOk result (out.new ≡ out.old ++ part_front header.now) }
{
    append_written(header.as_str(), out)?;
    out.push_str("=")
}

// the comma before a part that isn't the first
fn append_comma(out: &mut Text, is_first: bool) -> Result<(), OutOfMemory>
    ensures { OnOk result (out.new ≡ out.old ++ (if is_first then [] else 44 ∷ [])) }
{
    if is_first {
        return Ok(());
    }
    out.push_str(",")
}
