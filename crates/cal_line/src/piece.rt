ghost use Rattle.std.specs.Prelude.{◌≡◌, ◌++◌, IfOk, OnOk, OnErr};
ghost use Rattle.std.specs.Cow.{cow_str_bytes};
ghost use Rattle.cal_line.specs.Spans.{IsWritten, text_of};

use crate::unescaping::append_text;
use cal_value::{OutOfMemory, Text};
use std::alloc::Global;
use std::borrow::CowStr;
use std::marker::Model;

/// A key or a value as it is written in its line, which contracts see as the text that it spells.
#[derive(Debug, Drop)]
pub struct Piece<'a> {
    written: &'a str,
    has_escape: bool,
}

impl<'a> Model for Piece<'a> {
    ghost use Rattle.std.specs.Prelude.{ℕ, List};
    ghost use Rattle.cal_line.specs.Spans.{IsWritten, text_of};

    ghost Value = { List ℕ };

    ghost view = { λ p. text_of p.written.now };

    ghost invariant = { λ p. IsWritten p.written.now p.has_escape };
}

impl<'a> Piece<'a> {
    pub(crate) fn new(written: &'a str, has_escape: bool) -> Self
        requires { IsWritten written.now has_escape }
        ensures { result ≡ text_of written.now }
    {
        Piece {
            written,
            has_escape,
        }
    }

    /// Its text, which is borrowed from the line where no escape stands in it: only where one does
    /// this takes memory.
    pub fn text(&self, alloc: Global) -> Result<CowStr<'a>, OutOfMemory>
        ensures { IfOk result (λ text. cow_str_bytes text ≡ self.now) }
    {
        if self.has_escape {
            Ok(CowStr::Owned(self.to_text(alloc)?.into_string()))
        } else {
            Ok(CowStr::Borrowed(self.written))
        }
    }

    /// A copy of its text.
    pub fn to_text(&self, alloc: Global) -> Result<Text, OutOfMemory>
        ensures { IfOk result (λ text. text ≡ self.now) }
    {
        let mut text = Text::new(alloc);
        self.append_to(&mut text)?;
        Ok(text)
    }

    /// Appends its text. An `Err` leaves `out`.
    pub fn append_to(&self, out: &mut Text) -> Result<(), OutOfMemory>
        ensures ok { OnOk result (out.new ≡ out.old ++ self.now) }
        ensures err { OnErr result (out.new ≡ out.old) }
    {
        if self.has_escape {
            append_text(self.written, out)
        } else {
            out.push_str(self.written)
        }
    }
}
