//! Files in memory, by their names.
ghost use Rattle.std.specs.Prelude.{◌≡◌, position};
ghost use Rattle.cal_files.specs.Holding.{is_named};

use cal_value::{Seq, Text};

/// A file in memory.
#[derive(Debug, Drop)]
pub struct NamedBytes {
    pub name: Text,
    pub bytes: Seq<u8>,
}

/// The place of the first file of a name.
pub(crate) fn place_of(files: &[NamedBytes], name: &str) -> Option<usize>
    ensures { result ≡ position (is_named name.now) files.now }
{
    files.iter().position(|file| file.name.as_str() == name)
}
