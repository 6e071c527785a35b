//! Files read by their names, and shown as one text.
ghost use Rattle.std.specs.Prelude.{◌≡◌};

use cal_files::{FilesEnd, Opener, read_files};
use cal_value::Text;
use std::alloc::Global;

/// The files of these names, of which there are at most eight, each with a bar behind it.
pub(crate) fn read_joined<O: Opener>(
    alloc: Global,
    opener: &mut O,
    words: &[&str],
    limit: u64,
) -> Result<Vec<u8>, FilesEnd>
    requires { O.openings opener.old ≡ 0 }
{
    let names = names_of(alloc, words)?;
    let names = &names.as_slice()[..names.len().min(8)];
    let files = read_files(alloc, opener, names, limit)?;
    joined(alloc, files.as_slice())
}

fn names_of(alloc: Global, words: &[&str]) -> Result<Vec<Text>, FilesEnd> {
    let mut names = Vec::new(alloc);
    for word in words {
        names.push(Text::from_string(String::from_str(alloc, word)?))?;
    }
    Ok(names)
}

fn joined(alloc: Global, files: &[Vec<u8>]) -> Result<Vec<u8>, FilesEnd> {
    let mut text = Vec::new(alloc);
    for file in files {
        text.extend_from_slice(file.as_slice())?;
        text.push(b'|')?;
    }
    Ok(text)
}

/// Whether reading came out so.
pub(crate) fn is_so(read: Result<Vec<u8>, FilesEnd>, wanted: Result<&str, FilesEnd>) -> bool {
    match read {
        Ok(text) => match wanted {
            Ok(wanted) => text.as_slice() == wanted.as_bytes(),
            Err(_) => false,
        },
        Err(end) => wanted == Err(end),
    }
}
