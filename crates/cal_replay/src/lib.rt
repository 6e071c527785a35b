//! The running threads of a replay: a worker is a running thread with the notes of its lines.
//!
//!     while worker.has_more(&shared) { worker.step(..)?; }
//!
//! `step` runs a worker's next line, over the tree and the history that all workers share. The
//! layer above uses that each line with its note keeps the rules of journals by what its thread has
//! seen of the history, whatever other threads append meanwhile, that a clock was asked for just the
//! readings that are noted, and that channels are shown each line as it is noted. `show` hands a
//! line to a thread's channels and `flush` a channel's table to its book; by the laws beside them
//! channels have taken what the plain meaning takes.
//! Nothing is promised of a worker that ran out of memory, nor of when another thread's operation is
//! seen.
#![tactic(auto)]

mod answer;
mod flushing;
mod keeper;
mod own_line;
mod reading;
mod running;
mod shared;
mod shared_line;
mod showing;
mod shown_laws;
mod step;
mod worker;

pub use flushing::flush;
pub use keeper::Keeper;
pub use shared::Shared;
pub use showing::{ShownLine, show};
pub use shown_laws::{shown_as_noted_law, shown_at_start_law, shown_lines_law, told_step_law};
pub use worker::Worker;
