ghost use Rattle.std.specs.Prelude.{◌≡◌, ◌<◌, Some, length, slice_get, slice_index};
ghost use Rattle.cal_line.specs.Spans.{AreSpans, IsFieldAt, IsSpan, fields_at, field_at};

use crate::Piece;
use crate::spans::{FieldSpans, Span};
use std::marker::Model;

/// The fields of a line, which contracts see as the list of them.
#[derive(Debug, Drop)]
pub struct Fields<'a> {
    line: &'a str,
    fields: &'a [FieldSpans],
    values: &'a [Span],
}

impl<'a> Model for Fields<'a> {
    ghost use Rattle.std.specs.Prelude.{List};
    ghost use Rattle.cal_line.specs.declared.field.Field.{Field};
    ghost use Rattle.cal_line.specs.Spans.{AreSpans, fields_at};

    ghost Value = { List Field };

    ghost view = { λ f. fields_at f.line.now f.values.now f.fields.now };

    ghost invariant = { λ f. AreSpans f.line.now f.values.now f.fields.now };
}

impl<'a> Fields<'a> {
    pub(crate) fn new(line: &'a str, fields: &'a [FieldSpans], values: &'a [Span]) -> Self
        requires { AreSpans line.now values.now fields.now }
        ensures { result ≡ fields_at line.now values.now fields.now }
    {
        Fields {
            line,
            fields,
            values,
        }
    }

    /// How many there are: one or more.
    pub fn len(&self) -> usize
        ensures { result ≡ length self.now }
    {
        self.fields.len()
    }

    /// The field at a place, from 0.
    pub fn get(&self, place: usize) -> FieldPieces<'a>
        requires { place < length self.now }
        ensures { slice_get self.now place ≡ Some result }
    {
        let fields = self.fields;
        let spans = &fields[place];
        FieldPieces {
            line: self.line,
            key: &spans.key,
            values: &self.values[spans.first..spans.after],
        }
    }
}

/// A field of a line, which contracts see as the field.
#[derive(Debug, Drop)]
pub struct FieldPieces<'a> {
    line: &'a str,
    key: &'a Span,
    values: &'a [Span],
}

impl<'a> Model for FieldPieces<'a> {
    ghost use Rattle.std.specs.Prelude.{map};
    ghost use Rattle.std.specs.List.{All};
    ghost use Rattle.cal_line.specs.declared.field.Field.{Field};
    ghost use Rattle.cal_line.specs.Spans.{IsSpan, text_at};

    ghost Value = { Field };

    ghost view = { λ f. record {
      key = text_at f.line.now f.key.now;
      values = map (text_at f.line.now) f.values.now;
    } };

    ghost invariant = { λ f.
        IsSpan f.line.now f.key.now × All (IsSpan f.line.now) f.values.now };
}

impl<'a> FieldPieces<'a> {
    pub fn key(&self) -> Piece<'a>
        ensures { result ≡ self.now.key }
    {
        Piece::new(
            &self.line[self.key.start..self.key.end],
            self.key.has_escape,
        )
    }

    /// How many values it has: one or more.
    pub fn value_count(&self) -> usize
        ensures { result ≡ length self.now.values }
    {
        self.values.len()
    }

    /// The value at a place, from 0.
    pub fn value(&self, place: usize) -> Piece<'a>
        requires { place < length self.now.values }
        ensures { slice_get self.now.values place ≡ Some result }
    {
        let values = self.values;
        let span = &values[place];
        Piece::new(&self.line[span.start..span.end], span.has_escape)
    }
}
