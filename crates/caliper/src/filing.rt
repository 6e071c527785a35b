//! The call that asks many files.

use cal_base::Sink;
use cal_call_files::run_files;
use cal_files::FileOpener;
use cal_seeds::Seeds;
use std::fs::Files;
use std::process::ExitCode;
use std::thread::Threads;

/// Does what the words of `files` ask for, over the files of the machine, and gives the status.
pub fn file<R: Threads + Sync + AllocGlobal + Files, W: Sink, E: Sink>(
    rt: &R,
    seeds: Seeds,
    words: &[String],
    output: &mut W,
    errors: &mut E,
) -> ExitCode {
    let mut opener = FileOpener::new(rt);
    let outcome = run_files(rt, rt.alloc(), seeds, words, &mut opener, output, errors);
    drop(opener);
    ExitCode::from(outcome.status)
}
