//! The words of `watch`, and what they ask for.
ghost use Rattle.std.specs.Prelude.{◌≡◌, ◌+◌, IfSome, map, string_bytes};
ghost use Rattle.cal_call.specs.Words.{given_once};
ghost use Rattle.cal_call_watch.specs.Words.{asked, begins_watch, given, no_options, trigger_named};
ghost use Rattle.cal_call_watch.specs.Words.{watch_from, watch_of, with_q, with_trigger, with_word};

use cal_call::q_text;
use cal_watch::TriggerName;

/// What `watch` is asked for: the answer of a query over the rows that a trigger lets through. The
/// text of the query stands in the word at the place `q`, if it is there.
#[derive(Clone, Copy, Debug, PartialEq, Eq)]
pub struct WatchCommand {
    pub trigger: TriggerName,
    pub q: Option<u32>,
}

/// What the options of `watch` say so far.
#[derive(Clone, Copy, Debug)]
pub struct WatchOptions {
    trigger: Option<TriggerName>,
    q: Option<u32>,
}

impl WatchOptions {
    fn new() -> WatchOptions
        ensures { result ≡ no_options }
    {
        WatchOptions {
            trigger: None,
            q: None,
        }
    }

    /// The options with that of the word at a place, where it is one of `watch` and comes once.
    fn with_word(self, place: u32, word: &str) -> Option<WatchOptions>
        ensures next { result ≡ with_word place self word.now }
        ensures more { IfSome result (λ next. given next ≡ given self + 1) }
    {
        if q_text(word).is_some() {
            return self.with_q(place);
        }
        match trigger_named(word) {
            Some(name) => self.with_trigger(name),
            None => None,
        }
    }

    fn with_q(self, place: u32) -> Option<WatchOptions>
        ensures next { result ≡ with_q self (given_once self.q place) }
        ensures more { IfSome result (λ next. given next ≡ given self + 1) }
    {
        match self.q {
            Some(_) => None,
            None => Some(WatchOptions {
                trigger: self.trigger,
                q: Some(place),
            }),
        }
    }

    fn with_trigger(self, name: TriggerName) -> Option<WatchOptions>
        ensures next { result ≡ with_trigger self (given_once self.trigger name) }
        ensures more { IfSome result (λ next. given next ≡ given self + 1) }
    {
        match self.trigger {
            Some(_) => None,
            None => Some(WatchOptions {
                trigger: Some(name),
                q: self.q,
            }),
        }
    }

    /// The command of these options behind so many words.
    fn command(self, place: u32) -> Result<WatchCommand, u32>
        ensures { result ≡ watch_from place self.trigger self.q }
    {
        match self.trigger {
            Some(trigger) => Ok(WatchCommand { trigger, q: self.q }),
            None => Err(place),
        }
    }
}

/// The trigger that a word names.
fn trigger_named(word: &str) -> Option<TriggerName>
    ensures { result ≡ trigger_named word.now }
{
    match word {
        "--trigger=main" => Some(TriggerName::Main),
        "--trigger=slow" => Some(TriggerName::Slow),
        _ => None,
    }
}

/// Whether the words behind the program's name are for `run_watch`: the first is `watch`.
pub fn asks_to_watch(words: &[String]) -> bool
    ensures { result ≡ begins_watch (map string_bytes words.now) }
{
    match words.first() {
        Some(command) => command.as_str() == "watch",
        None => false,
    }
}

/// What the words behind the program's name ask for, or the place, from 0, of the first that breaks
/// the word rule; where a word is missing, the number of words. It takes no memory.
pub fn read_watch_words(words: &[String]) -> Result<WatchCommand, u32>
    ensures { result ≡ asked words.now }
{
    let Some((command, others)) = words.split_first() else {
        return Err(0);
    };
    if command.as_str() != "watch" {
        return Err(0);
    }
    read_options(others)
}

/// The command of the words behind `watch`.
fn read_options(words: &[String]) -> Result<WatchCommand, u32>
    ensures { result ≡ watch_of 1 no_options (map string_bytes words.now) }
{
    let mut options = WatchOptions::new();
    for (index, word) in words.iter().enumerate() {
        let place = index as u32 + 1;
        match options.with_word(place, word.as_str()) {
            Some(next) => options = next,
            None => return Err(place),
        }
    }
    options.command(words.len() as u32 + 1)
}
