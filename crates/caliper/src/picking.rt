//! Which call the first word picks, and what that one is lent.

use crate::filing::file;
use crate::living::live;
use crate::naming::name;
use crate::out_of_memory;
use crate::serving::serve_words;
use crate::watching::watch;
use cal_base::{Sink, Source};
use cal_call::WordsEnd;
use cal_call_files::asks_for_files;
use cal_call_live::asks_to_live;
use cal_call_names::asks_for_names;
use cal_call_watch::asks_to_watch;
use cal_seeds::Seeds;
use std::fs::Files;
use std::hash::RandomState;
use std::process::ExitCode;
use std::random::RandomSource;
use std::sync::Wait;
use std::thread::Threads;
use std::time::Clock;

/// A call that is lent hashers or seeds for its maps.
#[derive(Clone, Copy)]
enum SeededCall {
    Live,
    Watch,
    Files,
    Serve,
}

/// Does what the words ask for, and gives the status; where a seed for maps is refused, it tells
/// that memory ran out. Words that the system can't give as text are for `serve`, which says so.
pub fn answer<R, S: Source, W: Sink, E: Sink>(
    rt: &R,
    words: Result<Vec<String>, WordsEnd>,
    input: &mut S,
    output: &mut W,
    errors: &mut E,
) -> ExitCode
where
    R: Threads + Wait + Sync + AllocGlobal + Clock + Files + RandomSource,
{
    let given = words_given(&words);
    if asks_for_names(given) {
        return name(rt, given, input, output, errors);
    }
    let Ok(hashers) = RandomState::new(rt) else {
        return out_of_memory(errors);
    };
    let seeds = Seeds::of(&hashers);
    match call_of(given) {
        SeededCall::Live => live(rt, hashers, given, input, output, errors),
        SeededCall::Watch => watch(rt.alloc(), seeds, given, input, output, errors),
        SeededCall::Files => file(rt, seeds, given, output, errors),
        SeededCall::Serve => serve_words(rt, hashers, words, input, output, errors),
    }
}

/// The words, or none where they can't be given.
fn words_given(words: &Result<Vec<String>, WordsEnd>) -> &[String] {
    match words {
        Ok(words) => words.as_slice(),
        Err(_) => &[],
    }
}

/// The call that words pick which aren't for `names`.
fn call_of(words: &[String]) -> SeededCall {
    if asks_to_live(words) {
        SeededCall::Live
    } else if asks_to_watch(words) {
        SeededCall::Watch
    } else if asks_for_files(words) {
        SeededCall::Files
    } else {
        SeededCall::Serve
    }
}
