//! The options of `files`, as the words give them one by one.
ghost use Rattle.std.specs.Prelude.{◌≡◌, ◌+◌, ◌≤◌, IfSome};
ghost use Rattle.std.specs.Option.{option_map};
ghost use Rattle.cal_call.specs.Words.{given_once};
ghost use Rattle.cal_call_files.specs.Words.{files_from, given, in_name, no_options, with_file};
ghost use Rattle.cal_call_files.specs.Words.{with_q, with_word};

use crate::FilesCommand;
use cal_call::q_text;

/// The most files.
const MOST_FILES: u32 = 64;

/// What the options of `files` say so far: how many files there are, and the place of the word that
/// has the text of the query.
#[derive(Clone, Copy, Debug)]
pub struct FilesOptions {
    files: u32,
    q: Option<u32>,
}

impl FilesOptions {
    pub(crate) fn new() -> FilesOptions
        ensures { result ≡ no_options }
    {
        FilesOptions { files: 0, q: None }
    }

    /// The options with that of the word at a place, where it is one of `files` and may still come.
    pub(crate) fn with_word(self, place: u32, word: &str) -> Option<FilesOptions>
        requires { self.files ≤ 64 }
        ensures next { result ≡ with_word place self word.now }
        ensures few { IfSome result (λ next. next.files ≤ 64) }
        ensures more { IfSome result (λ next. given next ≡ given self + 1) }
    {
        if in_name(word).is_some() {
            return self.with_file();
        }
        if q_text(word).is_some() {
            return self.with_q(place);
        }
        None
    }

    fn with_file(self) -> Option<FilesOptions>
        requires { self.files ≤ 64 }
        ensures next { result ≡ with_file self }
        ensures few { IfSome result (λ next. next.files ≤ 64) }
        ensures more { IfSome result (λ next. given next ≡ given self + 1) }
    {
        if self.files >= MOST_FILES {
            return None;
        }
        Some(FilesOptions {
            files: self.files + 1,
            q: self.q,
        })
    }

    fn with_q(self, place: u32) -> Option<FilesOptions>
        requires { self.files ≤ 64 }
        ensures next { result ≡ with_q self (given_once self.q place) }
        ensures few { IfSome result (λ next. next.files ≤ 64) }
        ensures more { IfSome result (λ next. given next ≡ given self + 1) }
    {
        match self.q {
            Some(_) => None,
            None => Some(FilesOptions {
                files: self.files,
                q: Some(place),
            }),
        }
    }

    /// The command of these options behind so many words.
    pub(crate) fn command(self, place: u32) -> Result<FilesCommand, u32>
        ensures { result ≡ files_from place self }
    {
        if self.files == 0 {
            return Err(place);
        }
        Ok(FilesCommand { q: self.q })
    }
}

/// The name of the file in a word `--in=NAME`.
pub(crate) fn in_name(word: &str) -> Option<&str>
    ensures { option_map (λ name. name.now) result ≡ in_name word.now }
{
    word.strip_prefix("--in=")
}
