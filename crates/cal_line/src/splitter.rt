ghost use Rattle.std.specs.Prelude.{◌≡◌, ◌≤◌, [], ◌∷◌, ◌++◌, Some, None, length, drop, IfOk, OnOk, IsErrOf};
ghost use Rattle.std.specs.Str.{IsCharBoundary};
ghost use Rattle.cal_line.specs.Fields.{fields_of};
ghost use Rattle.cal_line.specs.Tokens.{tokens_of};
ghost use Rattle.cal_line.specs.Steps.{EndsAtMark, EndsAtComma};
ghost use Rattle.cal_line.specs.Steps.{SplitsLine, PushesField, PushesValues};

use crate::FieldEnd;
use crate::fields::Fields;
use crate::scanning::scan_piece;
use crate::spans::{FieldSpans, Span};
use cal_value::OutOfMemory;
use std::alloc::Global;

/// Splits lines, one after another, over memory that it keeps from line to line.
#[derive(Debug, Drop)]
pub struct Splitter {
    fields: Vec<FieldSpans>,
    values: Vec<Span>,
}

impl Splitter {
    /// It takes no memory.
    pub fn new(alloc: Global) -> Self {
        Splitter {
            fields: Vec::new(alloc),
            values: Vec::new(alloc),
        }
    }

    /// The fields of a line, in order, which stay in the line. Time and memory are in its length; a
    /// line with no more fields and values than an earlier one takes no memory.
    pub fn split<'a>(&'a mut self, line: &'a str) -> Result<Fields<'a>, FieldEnd>
        ensures found { IfOk result (λ fields. fields_of line.now ≡ Some fields) }
        ensures refused { IsErrOf result FieldEnd.BadField → fields_of line.now ≡ None }
    {
        self.fields.clear();
        self.values.clear();
        push_fields(line, &mut self.fields, &mut self.values)?;
        Ok(Fields::new(line, self.fields.as_slice(), self.values.as_slice()))
    }
}

/// Pushes where the fields of a line and their values stand.
fn push_fields(
    line: &str,
    fields: &mut Vec<FieldSpans>,
    values: &mut Vec<Span>,
) -> Result<(), FieldEnd>
    requires fields { fields.old.items ≡ [] }
    requires values { values.old.items ≡ [] }
    ensures found { OnOk result (SplitsLine line.now values.new.items fields.new.items) }
    ensures refused { IsErrOf result FieldEnd.BadField → fields_of line.now ≡ None }
{
    let mut place = push_field(line, 0, fields, values)?;
    while place < line.len() {
        place = push_field(line, place + 1, fields, values)?;
    }
    Ok(())
}

/// Pushes where the field that begins at `start` stands, and answers where it ends: at the line's
/// end, or at a comma.
fn push_field(
    line: &str,
    start: usize,
    fields: &mut Vec<FieldSpans>,
    values: &mut Vec<Span>,
) -> Result<usize, FieldEnd>
    requires { IsCharBoundary line.now start }
    ensures found { IfOk result (λ end. PushesField line.now start
        fields.old.items values.old.items fields.new.items values.new.items end) }
    ensures stop { IfOk result (λ end. EndsAtComma line.now end) }
    ensures refused { IsErrOf result FieldEnd.BadField → fields_of (drop start line.now) ≡ None }
{
    let Some(key) = scan_piece(line, start) else {
        return Err(FieldEnd::BadField);
    };
    let first = values.len();
    let end = push_values(line, key.end, values)?;
    let after = values.len();
    if key.end == start || after == first {
        return Err(FieldEnd::BadField);
    }
    push(fields, FieldSpans { key, first, after })?;
    Ok(end)
}

/// Pushes where the values stand, each behind an equals sign, from the end of a piece on, and
/// answers where they end: at the line's end, or at a comma.
fn push_values(line: &str, start: usize, values: &mut Vec<Span>) -> Result<usize, FieldEnd>
    requires start { start ≤ length line.now }
    requires stop { EndsAtMark line.now start }
    ensures found { IfOk result (λ end. PushesValues line.now start
        values.old.items values.new.items end) }
    ensures stop { IfOk result (λ end. EndsAtComma line.now end) }
    ensures refused { IsErrOf result FieldEnd.BadField → tokens_of (drop start line.now) ≡ None }
{
    let bytes = line.as_bytes();
    let mut place = start;
    while place < bytes.len() && bytes[place] == b'=' {
        let Some(value) = scan_piece(line, place + 1) else {
            return Err(FieldEnd::BadField);
        };
        place = value.end;
        push(values, value)?;
    }
    Ok(place)
}

fn push<T: Drop>(list: &mut Vec<T>, item: T) -> Result<(), OutOfMemory>
    ensures { OnOk result (list.new.items ≡ list.old.items ++ item ∷ []) }
{
    list.push(item)?;
    Ok(())
}
