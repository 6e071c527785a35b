//! The top call of the program `caliper`: `run` and `serve`, the words of a command line, and the
//! faults and texts that a person meets; a file for each command.
//!
//! What stands on `run` is the promise of the whole program: with status 0 or 1 the output has
//! grown by exactly the text that the command makes of its input, as `replay` the records that the
//! plain meaning gives for its script and for the journal which the run leaves, however its threads
//! interleave; and every other status has its cause. The program itself lends it the standard
//! streams; what these hold, and where they lead, no contract can say.
#![tactic(auto)]

mod asking;
mod command_line;
mod commands;
mod counting;
mod fault;
mod gen_words;
mod generating;
mod help;
mod journal;
mod laws;
mod made;
mod outcome;
mod query;
mod replay;
mod report;
mod running;
mod script;
mod serial;
mod showing;
mod summarizing;
mod threads;
mod used;
mod words;
mod words_end;

pub use asking::asked_query;
pub use command_line::serve;
pub use commands::{INPUT_LIMIT, run};
pub use fault::{Fault, InputKind};
pub use gen_words::{number_of, number_once};
pub use help::{HELP, VERSION, about};
pub use laws::written_journal_law;
pub use made::{Made, write_made};
pub use outcome::{Ended, Outcome, end};
pub use report::put_fault;
pub use running::run_text;
pub use script::read_input;
pub use serial::give_back;
pub use showing::show;
pub use threads::made_of;
pub use used::UsedJournal;
pub use words::{Command, Print, RunText, clock_named, q_text, read_words, text_at};
pub use words_end::WordsEnd;
