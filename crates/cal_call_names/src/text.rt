//! The text of the list: a line for each name, with what stands for it.
ghost use Rattle.std.specs.Prelude.{◌≡◌, ◌++◌, IfOk, OnOk};
ghost use Rattle.cal_call_names.specs.Listing.{declaration_line, names_text};

use cal_value::{Attribute, OutOfMemory, Text};
use itoa::Buffer;
use std::alloc::Global;

/// The text of declarations, in their order. It takes time in its length.
pub(crate) fn names_text(alloc: Global, kept: &[Attribute]) -> Result<Text, OutOfMemory>
    ensures { IfOk result (λ text. text ≡ names_text kept.now) }
{
    let mut text = Text::new(alloc);
    push_declarations(&mut text, kept)?;
    Ok(text)
}

/// Adds the lines of declarations.
fn push_declarations(text: &mut Text, kept: &[Attribute]) -> Result<(), OutOfMemory>
    ensures { OnOk result (text.new ≡ text.old ++ names_text kept.now) }
{
    for declared in kept {
        push_declaration(text, declared)?;
    }
    Ok(())
}

/// Adds the line of a declaration.
fn push_declaration(text: &mut Text, declared: &Attribute) -> Result<(), OutOfMemory>
    ensures { OnOk result (text.new ≡ text.old ++ declaration_line declared.now) }
{
    text.push_str("attribute ")?;
    text.push_str(declared.name.as_str())?;
    text.push_str(" ")?;
    text.push_str(declared.kind.name())?;
    text.push_str(" ")?;
    text.push_str(Buffer::new().format(declared.props.0))?;
    text.push_str("\n")
}
