//! The words behind `gen`.
ghost use Rattle.std.specs.Prelude.{◌≡◌, ◌+◌, false, true, is_some, map, string_bytes, IfSome};
ghost use Rattle.cal_value.specs.Reading.{uint_of};
ghost use Rattle.cal_call.specs.GenWords.{all_lines, count_given, gen_from, gen_of, no_gen_options};
ghost use Rattle.cal_call.specs.GenWords.{number_in, number_of, number_once, with_gen_word};
ghost use Rattle.cal_call.specs.GenWords.{with_next_word, with_other_word, with_print};
ghost use Rattle.cal_call.specs.GenWords.{with_lines, with_seed, with_threads};

use crate::{Command, Print};

/// The most lines in all threads.
const MOST_LINES: u32 = 1_048_576;

const MOST_SEED: u32 = 2_147_483_647;

const MOST_THREADS: u32 = 64;

/// What the options of `gen` say so far.
#[derive(Clone, Copy, Debug)]
pub struct GenOptions {
    seed: Option<u32>,
    threads: Option<u32>,
    lines: Option<u32>,
    print: Option<Print>,
}

impl GenOptions {
    fn new() -> GenOptions
        ensures { result ≡ no_gen_options }
    {
        GenOptions {
            seed: None,
            threads: None,
            lines: None,
            print: None,
        }
    }

    /// The options with that of a next word, where it is one of `gen` and comes once, and the lines
    /// aren't too many in all.
    fn with_next_word(self, word: &str) -> Option<GenOptions>
        ensures next { result ≡ with_next_word self word.now }
        ensures more { IfSome result (λ next. count_given next ≡ count_given self + 1) }
    {
        match self.with_word(word) {
            Some(next) if next.all_lines() <= u64::from(MOST_LINES) => Some(next),
            _ => None,
        }
    }

    fn with_word(self, word: &str) -> Option<GenOptions>
        ensures next { result ≡ with_gen_word self word.now }
        ensures more { IfSome result (λ next. count_given next ≡ count_given self + 1) }
    {
        if let Some(text) = word.strip_prefix("--seed=") {
            return self.with_seed(text);
        }
        if let Some(text) = word.strip_prefix("--threads=") {
            return self.with_threads(text);
        }
        self.with_other_word(word)
    }

    fn with_other_word(self, word: &str) -> Option<GenOptions>
        ensures next { result ≡ with_other_word self word.now }
        ensures more { IfSome result (λ next. count_given next ≡ count_given self + 1) }
    {
        if let Some(text) = word.strip_prefix("--lines=") {
            return self.with_lines(text);
        }
        if word == "--print=script" {
            return self.with_print(Print::Script);
        }
        if word == "--print=summary" {
            return self.with_print(Print::Summary);
        }
        None
    }

    fn with_seed(self, text: &str) -> Option<GenOptions>
        ensures next { result ≡ with_seed self text.now }
        ensures more { IfSome result (λ next. count_given next ≡ count_given self + 1) }
    {
        match number_once(self.seed, number_in(0, MOST_SEED, text)) {
            Some(seed) => Some(GenOptions { seed, ..self }),
            None => None,
        }
    }

    fn with_threads(self, text: &str) -> Option<GenOptions>
        ensures next { result ≡ with_threads self text.now }
        ensures more { IfSome result (λ next. count_given next ≡ count_given self + 1) }
    {
        match number_once(self.threads, number_in(1, MOST_THREADS, text)) {
            Some(threads) => Some(GenOptions { threads, ..self }),
            None => None,
        }
    }

    fn with_lines(self, text: &str) -> Option<GenOptions>
        ensures next { result ≡ with_lines self text.now }
        ensures more { IfSome result (λ next. count_given next ≡ count_given self + 1) }
    {
        match number_once(self.lines, number_in(0, MOST_LINES, text)) {
            Some(lines) => Some(GenOptions { lines, ..self }),
            None => None,
        }
    }

    fn with_print(self, print: Print) -> Option<GenOptions>
        ensures next { result ≡ with_print self print }
        ensures more { IfSome result (λ next. count_given next ≡ count_given self + 1) }
    {
        if self.print.is_some() {
            return None;
        }
        Some(GenOptions {
            print: Some(print),
            ..self
        })
    }

    /// So many lines in all threads, as far as the options say.
    fn all_lines(self) -> u64
        ensures { result ≡ all_lines self }
    {
        u64::from(self.threads.unwrap_or(1)) * u64::from(self.lines.unwrap_or(0))
    }

    /// The command of these options behind so many words.
    fn command(self, place: u32) -> Result<Command, u32>
        ensures { result ≡ gen_from place self }
    {
        match (self.seed, self.threads, self.lines) {
            (Some(seed), Some(threads), Some(lines)) => Ok(Command::Gen {
                seed,
                threads,
                lines,
                print: self.print.unwrap_or(Print::Script),
            }),
            _ => Err(place),
        }
    }
}

/// The number of at most 64 bits that a decimal writes. No sign stands before it.
fn read_decimal(text: &str) -> Option<u64>
    ensures { result ≡ uint_of text.now }
{
    if text.starts_with('+') {
        return None;
    }
    text.parse().ok()
}

/// The number that a decimal of at most ten digits writes, in a range.
fn number_in(least: u32, most: u32, text: &str) -> Option<u32>
    ensures { result ≡ number_in least most text.now }
{
    number_of(10, least, most, text)
}

/// The number that a decimal of at most so many digits writes, in a range. No sign stands before it.
pub fn number_of(digits: usize, least: u32, most: u32, text: &str) -> Option<u32>
    ensures { result ≡ number_of digits least most text.now }
{
    if text.len() > digits {
        return None;
    }
    match read_decimal(text) {
        Some(number) if number >= u64::from(least) && number <= u64::from(most) => {
            Some(number as u32)
        }
        _ => None,
    }
}

/// A number, unless a word gave one before.
pub fn number_once(before: Option<u32>, number: Option<u32>) -> Option<Option<u32>>
    ensures number { result ≡ number_once before number }
    ensures fresh { IfSome result (λ now. is_some before ≡ false) }
    ensures given { IfSome result (λ now. is_some now ≡ true) }
{
    match (before, number) {
        (None, Some(number)) => Some(Some(number)),
        _ => None,
    }
}

/// The command of the words behind `gen`.
pub fn read_gen(words: &[String]) -> Result<Command, u32>
    ensures { result ≡ gen_of 1 no_gen_options (map string_bytes words.now) }
{
    let mut options = GenOptions::new();
    for (index, word) in words.iter().enumerate() {
        let place = index as u32 + 1;
        match options.with_next_word(word.as_str()) {
            Some(next) => options = next,
            None => return Err(place),
        }
    }
    options.command(words.len() as u32 + 1)
}
