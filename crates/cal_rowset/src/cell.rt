ghost use Rattle.std.specs.Prelude.{◌≡◌, [], ◌∷◌, ◌++◌, List, Some, None, OnOk, if◌then◌else◌};
ghost use Rattle.cal_value.specs.declared.variant.Variant.{Variant};
ghost use Rattle.cal_rowset.specs.Cells.{content_of_value};
ghost use Rattle.cal_rowset.specs.Filling.{Shows, is_nothing};

use cal_value::{OutOfMemory, Text, Variant, print_value};
use std::alloc::Global;

/// What a cell holds: nothing, one number alone, or words. Several values are words too.
#[derive(Clone, Copy, Debug, PartialEq, Eq)]
pub enum Content {
    Nothing,
    Whole(i128),
    Decimal,
    Words,
}

/// A cell of a row: the text of its values, and what it holds.
#[derive(Debug, Drop)]
pub struct Cell {
    pub text: Text,
    pub content: Content,
}

impl Cell {
    /// No value. It takes no memory.
    pub fn new(alloc: Global) -> Self
        ensures { Shows result [] }
    {
        Cell {
            text: Text::new(alloc),
            content: Content::Nothing,
        }
    }

    /// Takes its values away, and keeps the memory.
    pub fn clear(&mut self)
        ensures { Shows self.new [] }
    {
        self.text.truncate(0);
        self.content = Content::Nothing;
    }

    pub fn is_empty(&self) -> bool
        ensures { result ≡ is_nothing self.now.content }
    {
        matches!(self.content, Content::Nothing)
    }

    /// Adds a value. An `Err` may leave a part of it.
    pub fn push(&mut self, value: &Variant) -> Result<(), OutOfMemory>
        ensures { OnOk result ((vs : List Variant) → Shows self.old vs
            → Shows self.new (vs ++ value.now ∷ [])) }
    {
        if self.is_empty() {
            self.content = content_of_value(value);
        } else {
            self.text.push_str("/")?;
            self.content = Content::Words;
        }
        print_value(value, &mut self.text)
    }
}

/// What a cell of this value alone holds.
fn content_of_value(value: &Variant) -> Content
    ensures { result ≡ content_of_value value.now }
{
    match value {
        Variant::Int(number) => Content::Whole(*number),
        Variant::Uint(number) => Content::Whole(i128::from(*number)),
        Variant::Fixed(_) => Content::Decimal,
        _ => Content::Words,
    }
}
