//! The words of a command line, and the command that they ask for.
ghost use Rattle.std.specs.Prelude.{◌≡◌, map, string_bytes};
ghost use Rattle.std.specs.Option.{option_copied};
ghost use Rattle.cal_call.specs.Words.{asked, clock_named, clock_of, given_once, journal_by};
ghost use Rattle.cal_call.specs.Words.{no_options, q_text, query_of, replay_by, text_at};
ghost use Rattle.cal_call.specs.Words.{with_join, with_q, with_word};

use crate::gen_words::read_gen;

/// What the program is asked to do.
#[derive(Clone, Copy, Debug, PartialEq, Eq)]
pub enum Command {
    /// Reads a script and a journal behind it, or none, and writes the `.cali` text of the run.
    Serial,
    /// Reads a script, runs its threads by a real clock or by the script's, and writes the `.cali`
    /// text of the run.
    Replay {
        real: bool,
    },
    /// Does the same, and writes the run's journal.
    Journal {
        real: bool,
    },
    /// Reads a stream and lays out the answer of a query, with the globals joined to each row where
    /// that is asked. The text of the query stands in the word at the place `q`, if it is there.
    Query {
        q: Option<u32>,
        join: bool,
    },
    /// Generates the script of a seed, with so many threads of so many lines, and prints it or how
    /// large its run is.
    Gen {
        seed: u32,
        threads: u32,
        lines: u32,
        print: Print,
    },
}

/// What `gen` prints.
#[derive(Clone, Copy, Debug, PartialEq, Eq)]
pub enum Print {
    /// The script.
    Script,
    /// How large the run of its plain journal is.
    Summary,
}

/// Which text of a run in threads is written.
#[derive(Clone, Copy, Debug, PartialEq, Eq)]
pub enum RunText {
    /// That of its records.
    Records,
    /// That of its journal.
    Journal,
}

/// What the options of `query` say so far.
#[derive(Clone, Copy, Debug)]
pub struct Options {
    q: Option<u32>,
    join: Option<bool>,
}

/// The text of a word `--q=TEXT`.
pub fn q_text(word: &str) -> Option<&str>
    ensures { option_copied result ≡ q_text word.now }
{
    word.strip_prefix("--q=")
}

impl Options {
    fn new() -> Options
        ensures { result ≡ no_options }
    {
        Options {
            q: None,
            join: None,
        }
    }

    /// The options with those of the word at a place, where it is one of `query` and comes once.
    fn with_word(self, place: u32, word: &str) -> Option<Options>
        ensures { result ≡ with_word place self word.now }
    {
        if q_text(word).is_some() {
            return self.with_q(place);
        }
        match word {
            "--globals=off" => self.with_join(false),
            "--globals=join" => self.with_join(true),
            _ => None,
        }
    }

    fn with_q(self, place: u32) -> Option<Options>
        ensures { result ≡ with_q self (given_once self.q place) }
    {
        match self.q {
            Some(_) => None,
            None => Some(Options {
                q: Some(place),
                join: self.join,
            }),
        }
    }

    fn with_join(self, join: bool) -> Option<Options>
        ensures { result ≡ with_join self (given_once self.join join) }
    {
        match self.join {
            Some(_) => None,
            None => Some(Options {
                q: self.q,
                join: Some(join),
            }),
        }
    }
}

/// The command of the words behind the program's name, or the place, from 0, of the first word that
/// breaks the word rule; where a word is missing, the number of words. It takes no memory.
pub fn read_words(words: &[String]) -> Result<Command, u32>
    ensures { result ≡ asked words.now }
{
    let Some((command, others)) = words.split_first() else {
        return Err(0);
    };
    match command.as_str() {
        "serial" if others.is_empty() => Ok(Command::Serial),
        "serial" => Err(1),
        "replay" => read_replay(others),
        "journal" => read_journal(others),
        "query" => read_query(others),
        "gen" => read_gen(others),
        _ => Err(0),
    }
}

/// The command of the words behind `replay`.
fn read_replay(words: &[String]) -> Result<Command, u32>
    ensures { result ≡ replay_by (clock_of (map string_bytes words.now)) }
{
    match clock_of(words) {
        Ok(real) => Ok(Command::Replay { real }),
        Err(place) => Err(place),
    }
}

/// The command of the words behind `journal`.
fn read_journal(words: &[String]) -> Result<Command, u32>
    ensures { result ≡ journal_by (clock_of (map string_bytes words.now)) }
{
    match clock_of(words) {
        Ok(real) => Ok(Command::Journal { real }),
        Err(place) => Err(place),
    }
}

/// Whether the words behind a command ask for a real clock, or the place of the first of them that
/// breaks the word rule.
fn clock_of(words: &[String]) -> Result<bool, u32>
    ensures { result ≡ clock_of (map string_bytes words.now) }
{
    match words {
        [] => Ok(false),
        [word] => clock_named(word.as_str()).ok_or(1),
        [word, ..] if clock_named(word.as_str()).is_some() => Err(2),
        _ => Err(1),
    }
}

/// Whether the clock that a word names is a real one.
pub fn clock_named(word: &str) -> Option<bool>
    ensures { result ≡ clock_named word.now }
{
    match word {
        "--clock=script" => Some(false),
        "--clock=real" => Some(true),
        _ => None,
    }
}

/// The command of the words behind `query`.
fn read_query(words: &[String]) -> Result<Command, u32>
    ensures { result ≡ query_of 1 no_options (map string_bytes words.now) }
{
    let mut options = Options::new();
    for (index, word) in words.iter().enumerate() {
        let place = index as u32 + 1;
        match options.with_word(place, word.as_str()) {
            Some(next) => options = next,
            None => return Err(place),
        }
    }
    Ok(Command::Query {
        q: options.q,
        join: options.join.unwrap_or(false),
    })
}

/// The text of a query whose word has this place; without one it is empty.
pub fn text_at(words: &[String], q: Option<u32>) -> &str
    ensures { result.now ≡ text_at words.now q }
{
    let Some(place) = q else {
        return "";
    };
    match words.get(place as usize) {
        Some(word) => q_text(word.as_str()).unwrap_or(""),
        None => "",
    }
}
