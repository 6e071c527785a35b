//! The top call `run_live`: a run of a script beside a thread that collects what the others flush.
//!
//! The program picks it by the first word. What stands on it: where it returns, what it has written
//! and answered is what `replay` may write and answer, word for word, and no flush met another
//! thread's turn. That it returns isn't promised: threads wait for room in the collector's mailbox,
//! and the collector for what they send.
#![tactic(auto)]

mod living;
mod words;

pub use living::run_live;
pub use words::{LiveCommand, asks_to_live, read_live_words};
