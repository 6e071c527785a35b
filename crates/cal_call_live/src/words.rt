//! The words of `live`, and what they ask for.
ghost use Rattle.std.specs.Prelude.{◌≡◌, ◌+◌, IfOk, IfSome, map, string_bytes};
ghost use Rattle.cal_call.specs.GenWords.{number_once};
ghost use Rattle.cal_call.specs.Words.{given_once};
ghost use Rattle.cal_call_live.specs.Words.{IsRoom, asked, begins_live, command_from, given};
ghost use Rattle.cal_call_live.specs.Words.{live_of, no_options, room_in, with_clock, with_room};
ghost use Rattle.cal_call_live.specs.Words.{with_word};

use cal_call::{clock_named, number_of, number_once};

/// The room in the collector's mailbox where the words name none: so many parts wait there.
const USUAL_ROOM: u32 = 16;

/// The most room that words may name.
const MOST_ROOM: u32 = 1024;

/// What `live` is asked for: a run by a real clock or by the script's, with room for so many parts
/// in the collector's mailbox, from 1 to 1024.
#[derive(Clone, Copy, Debug, PartialEq, Eq)]
pub struct LiveCommand {
    pub real: bool,
    pub room: u32,
}

/// What the options of `live` say so far.
#[derive(Clone, Copy, Debug)]
pub struct LiveOptions {
    real: Option<bool>,
    room: Option<u32>,
}

impl LiveOptions {
    fn new() -> LiveOptions
        ensures { result ≡ no_options }
    {
        LiveOptions {
            real: None,
            room: None,
        }
    }

    /// The options with that of a word, where it is one of `live` and comes once.
    fn with_word(self, word: &str) -> Option<LiveOptions>
        ensures next { result ≡ with_word self word.now }
        ensures more { IfSome result (λ next. given next ≡ given self + 1) }
    {
        if let Some(real) = clock_named(word) {
            return self.with_clock(real);
        }
        match word.strip_prefix("--room=") {
            Some(text) => self.with_room(text),
            None => None,
        }
    }

    fn with_clock(self, real: bool) -> Option<LiveOptions>
        ensures next { result ≡ with_clock self (given_once self.real real) }
        ensures more { IfSome result (λ next. given next ≡ given self + 1) }
    {
        match self.real {
            Some(_) => None,
            None => Some(LiveOptions {
                real: Some(real),
                room: self.room,
            }),
        }
    }

    fn with_room(self, text: &str) -> Option<LiveOptions>
        ensures next { result ≡ with_room self (number_once self.room (room_in text.now)) }
        ensures more { IfSome result (λ next. given next ≡ given self + 1) }
    {
        match number_once(self.room, number_of(4, 1, MOST_ROOM, text)) {
            Some(room) => Some(LiveOptions {
                real: self.real,
                room,
            }),
            None => None,
        }
    }

    /// The command of these options.
    fn command(self) -> LiveCommand
        ensures { result ≡ command_from self }
    {
        LiveCommand {
            real: self.real.unwrap_or(false),
            room: self.room.unwrap_or(USUAL_ROOM),
        }
    }
}

/// Whether the words behind the program's name are for `run_live`: the first is `live`.
pub fn asks_to_live(words: &[String]) -> bool
    ensures { result ≡ begins_live (map string_bytes words.now) }
{
    match words.first() {
        Some(command) => command.as_str() == "live",
        None => false,
    }
}

/// What the words behind the program's name ask for, or the place, from 0, of the first that breaks
/// the word rule. It takes no memory.
pub fn read_live_words(words: &[String]) -> Result<LiveCommand, u32>
    ensures asked { result ≡ asked words.now }
    ensures room { IfOk result (λ command. IsRoom command.room) }
{
    let Some((command, others)) = words.split_first() else {
        return Err(0);
    };
    if command.as_str() != "live" {
        return Err(0);
    }
    read_options(others)
}

/// The command of the words behind `live`.
fn read_options(words: &[String]) -> Result<LiveCommand, u32>
    ensures { result ≡ live_of 1 no_options (map string_bytes words.now) }
{
    let mut options = LiveOptions::new();
    for (index, word) in words.iter().enumerate() {
        let place = index as u32 + 1;
        match options.with_word(word.as_str()) {
            Some(next) => options = next,
            None => return Err(place),
        }
    }
    Ok(options.command())
}
