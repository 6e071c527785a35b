//! The words of the command line.

use cal_call::WordsEnd;
use std::io;
use std::rt::Env;

/// The words behind the program's name.
pub fn words_of(rt: &(impl Env + AllocGlobal)) -> Result<Vec<String>, WordsEnd> {
    let mut words = Vec::new(rt.alloc());
    let args = std::env::args(rt).map_err(|error| match error.kind() {
        io::ErrorKind::OutOfMemory => WordsEnd::OutOfMemory,
        _ => WordsEnd::NotText,
    })?;
    for word in args.skip(1) {
        words.push(word).map_err(|_| WordsEnd::OutOfMemory)?;
    }
    Ok(words)
}
