ghost use Rattle.std.specs.Prelude.{◌≡◌, List, Some, None, IfOk, IsErrOf};
ghost use Rattle.cal_line.specs.Fields.{IsFields, fields_of};
ghost use Rattle.cal_line.specs.declared.field.Field.{Field};

use crate::fields::{FieldPieces, Fields};
use crate::{Field, FieldEnd, Splitter};
use cal_value::{OutOfMemory, Seq};
use std::alloc::Global;

/// The fields of a line, in order, with copies of their texts. Time and memory are in its length.
pub fn split_fields(alloc: Global, line: &str) -> Result<Seq<Field>, FieldEnd>
    // What is answered are the line's fields, and it has no others.
    ensures found { IfOk result (λ fields. IsFields line.now fields) }
    ensures only { IfOk result (λ fields. (others : List Field)
        → IsFields line.now others → others ≡ fields) }
    // A line is refused exactly where it has no fields.
    ensures none { IsErrOf result FieldEnd.BadField → (fields : List Field)
        → ¬ IsFields line.now fields }
    // The same as a function of the line.
    ensures computed { IfOk result (λ fields. fields_of line.now ≡ Some fields) }
    ensures refused { IsErrOf result FieldEnd.BadField → fields_of line.now ≡ None }
{
    let mut splitter = Splitter::new(alloc);
    let fields = splitter.split(line)?;
    Ok(copied_fields(alloc, &fields)?)
}

fn copied_fields(alloc: Global, fields: &Fields) -> Result<Seq<Field>, OutOfMemory>
    ensures { IfOk result (λ copied. copied ≡ fields.now) }
{
    let mut copied = Seq::new(alloc);
    for place in 0..fields.len() {
        copied.push(copied_field(alloc, &fields.get(place))?)?;
    }
    Ok(copied)
}

fn copied_field(alloc: Global, field: &FieldPieces) -> Result<Field, OutOfMemory>
    ensures { IfOk result (λ copied. copied ≡ field.now) }
{
    let key = field.key().to_text(alloc)?;
    let mut values = Seq::new(alloc);
    for place in 0..field.value_count() {
        values.push(field.value(place).to_text(alloc)?)?;
    }
    Ok(Field { key, values })
}
