ghost use Rattle.std.specs.Prelude.{◌≡◌, IfOk};
ghost use Rattle.cal_script.specs.Values.{value_of_form};

use cal_value::{OutOfMemory, Text, Variant};
use std::alloc::Global;
use std::marker::Model;

/// A value that a line says, which contracts see as the value. A text without an escape is lent.
#[derive(Debug, Drop)]
pub(crate) struct Said<'a> {
    pub(crate) form: SaidForm<'a>,
}

#[derive(Debug, Drop)]
pub(crate) enum SaidForm<'a> {
    /// Each with what it is looked for by.
    Text { text: &'a str, hash: usize },
    Value { value: Variant, hash: usize },
}

impl<'a> Model for Said<'a> {
    ghost use Rattle.cal_script.specs.Values.{value_of_form};
    ghost use Rattle.cal_value.specs.declared.variant.Variant.{Variant};

    ghost Value = { Variant };

    ghost view = { λ s. value_of_form s.form };
}

impl<'a> Said<'a> {
    /// The value by itself.
    pub(crate) fn into_value(self, alloc: Global) -> Result<Variant, OutOfMemory>
        ensures { IfOk result (λ value. value ≡ self.entry) }
    {
        match self.form {
            SaidForm::Text { text, hash: _ } => Ok(Variant::Text(Text::from_str(alloc, text)?)),
            SaidForm::Value { value, hash: _ } => Ok(value),
        }
    }
}
