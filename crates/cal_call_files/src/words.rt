//! The words of `files`, and what they ask for.
ghost use Rattle.std.specs.Prelude.{◌≡◌, map, string_bytes};
ghost use Rattle.cal_call_files.specs.Words.{asked, begins_files, files_of, no_options};

use crate::options::FilesOptions;

/// What `files` is asked for: the answer of a query over the rows of the files that the words name.
/// The text of the query stands in the word at the place `q`, if it is there.
#[derive(Clone, Copy, Debug, PartialEq, Eq)]
pub struct FilesCommand {
    pub q: Option<u32>,
}

/// Whether the words behind the program's name are for `run_files`: the first is `files`.
pub fn asks_for_files(words: &[String]) -> bool
    ensures { result ≡ begins_files (map string_bytes words.now) }
{
    match words.first() {
        Some(command) => command.as_str() == "files",
        None => false,
    }
}

/// What the words behind the program's name ask for, or the place, from 0, of the first that breaks
/// the word rule; where a word is missing, the number of words. It takes no memory.
pub fn read_files_words(words: &[String]) -> Result<FilesCommand, u32>
    ensures { result ≡ asked words.now }
{
    let Some((command, others)) = words.split_first() else {
        return Err(0);
    };
    if command.as_str() != "files" {
        return Err(0);
    }
    read_options(others)
}

/// The command of the words behind `files`.
fn read_options(words: &[String]) -> Result<FilesCommand, u32>
    ensures { result ≡ files_of 1 no_options (map string_bytes words.now) }
{
    let mut options = FilesOptions::new();
    for (index, word) in words.iter().enumerate() {
        let place = index as u32 + 1;
        match options.with_word(place, word.as_str()) {
            Some(next) => options = next,
            None => return Err(place),
        }
    }
    options.command(words.len() as u32 + 1)
}
