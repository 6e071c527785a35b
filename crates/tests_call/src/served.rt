//! Whole command lines.
ghost use Rattle.std.specs.Prelude.{◌≡◌, length};

use crate::calls::{Streams, clocks, streams_of, texts};
use crate::scripts::{FIRST, FIRST_JOURNAL, FIRST_TEXT};
use cal_base::{MemClock, OpenGate};
use cal_call::{HELP, VERSION, WordsEnd, serve};
use cal_run::Formulas;
use std::alloc::Global;
use std::hash::RandomState;
use std::process::ExitCode;
use std::random::RandomSource;
use std::thread::Threads;

/// What a command line leaves: its status, its output and what it tells.
#[derive(Clone, Copy)]
struct Served<'a> {
    status: u8,
    text: &'a str,
    told: &'a str,
}

/// Serves words over streams, by these clocks.
fn code_of<R: Threads + Sync + RandomSource>(
    rt: &R,
    alloc: Global,
    words: Result<Vec<String>, WordsEnd>,
    streams: &mut Streams,
    clocks: &mut Vec<MemClock>,
) -> Option<ExitCode>
    requires { length clocks.old.items ≡ 64 }
{
    let hashers = RandomState::new(rt).ok()?;
    Some(serve(
        rt,
        alloc,
        hashers,
        words,
        &mut streams.input,
        &mut streams.output,
        &mut streams.errors,
        clocks,
        &OpenGate,
        &Formulas,
    ))
}

/// Whether words that are served over streams leave this.
fn leaves<R: Threads + Sync + RandomSource>(
    rt: &R,
    alloc: Global,
    words: Result<Vec<String>, WordsEnd>,
    streams: &mut Streams,
    served: &Served<'_>,
) -> bool {
    let Ok(mut clocks) = clocks(alloc) else {
        return false;
    };
    let code = code_of(rt, alloc, words, streams, &mut clocks);
    drop(clocks);
    code == Some(ExitCode::from(served.status))
        && streams.output.bytes() == served.text.as_bytes()
        && streams.errors.bytes() == served.told.as_bytes()
}

/// Whether they leave it over the first script, with room for so many bytes of output.
fn is_served<R: Threads + Sync + RandomSource>(
    rt: &R,
    alloc: Global,
    words: Result<Vec<String>, WordsEnd>,
    room: u64,
    served: &Served<'_>,
) -> bool {
    let Ok(mut streams) = streams_of(alloc, FIRST, room) else {
        return false;
    };
    let is_left = leaves(rt, alloc, words, &mut streams, served);
    drop(streams);
    is_left
}

/// The same of one word.
fn word_is_served<R: Threads + Sync + RandomSource>(
    rt: &R,
    alloc: Global,
    word: &str,
    room: u64,
    served: &Served<'_>,
) -> bool {
    match texts(alloc, &[word]) {
        Ok(words) => is_served(rt, alloc, Ok(words), room, served),
        Err(_) => false,
    }
}

/// A word that asks for a command or for none, and what it leaves over the first script.
const ROWS: [(&str, u8, &str, &str); 4] = [
    ("serial", 0, FIRST_TEXT, ""),
    ("replay", 0, FIRST_TEXT, ""),
    ("journal", 0, FIRST_JOURNAL, ""),
    ("live", 2, "", "caliper: usage: word 1\n"),
];

fn rows() -> &'static [(&'static str, u8, &'static str, &'static str)] {
    &ROWS
}

#[test]
fn words_are_served(rt: HostRuntime) {
    for (word, status, text, told) in rows() {
        let served = Served {
            status: *status,
            text,
            told,
        };
        let is_left = word_is_served(&rt, rt.alloc(), word, 2000, &served);
        assert!(rt; is_left, "{word}");
    }
}

/// Whether a word is answered with a text, and nothing is told.
fn is_answered<R: Threads + Sync + RandomSource>(
    rt: &R,
    alloc: Global,
    word: &str,
    text: &str,
) -> bool {
    let served = Served {
        status: 0,
        text,
        told: "",
    };
    word_is_served(rt, alloc, word, 8000, &served)
}

#[test]
fn help_and_version_are_answered(rt: HostRuntime) {
    assert!(rt; is_answered(&rt, rt.alloc(), "--help", HELP));
    assert!(rt; is_answered(&rt, rt.alloc(), "--version", VERSION));
}

#[test]
fn a_help_that_fails_is_told(rt: HostRuntime) {
    let served = Served {
        status: 6,
        text: "caliper:",
        told: "caliper: write failed\n",
    };
    assert!(rt; word_is_served(&rt, rt.alloc(), "--help", 8, &served));
}

#[test]
fn words_that_could_not_be_read_are_told(rt: HostRuntime) {
    let faulty = Served {
        status: 2,
        text: "",
        told: "caliper: usage: word 1\n",
    };
    assert!(rt; is_served(&rt, rt.alloc(), Err(WordsEnd::NotText), 10, &faulty));
    let refused = Served {
        status: 7,
        text: "",
        told: "caliper: out of memory\n",
    };
    assert!(rt; is_served(&rt, rt.alloc(), Err(WordsEnd::OutOfMemory), 10, &refused));
}
