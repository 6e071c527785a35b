//! The names of files, as the words have them.
ghost use Rattle.std.specs.Prelude.{◌≡◌, IfOk};
ghost use Rattle.cal_call_files.specs.Words.{names_of};

use crate::options::in_name;
use cal_value::{OutOfMemory, Text};
use std::alloc::Global;

/// The names of the files in words, in their order.
pub(crate) fn names_of(alloc: Global, words: &[String]) -> Result<Vec<Text>, OutOfMemory>
    ensures { IfOk result (λ names. names.items ≡ names_of words.now) }
{
    let mut names = Vec::new(alloc);
    for word in words {
        if let Some(name) = in_name(word.as_str()) {
            let name = Text::from_str(alloc, name)?;
            names.push(name)?;
        }
    }
    Ok(names)
}
