//! A thread of a run between two lines, and what a line does to it but for its snapshots.
//!
//! A process line is placed in the history and answered by the process's board behind all that
//! stands before its place; another line is answered by the thread's own board, and looks at the
//! history where some channel takes a snapshot. Between that and the change the layer above takes
//! the snapshots, of what a `Moment` shows. What a thread has is said by the plain meaning of a
//! run (`cal_run`) on the operations that the thread has seen, whatever others append meanwhile.
#![tactic(auto)]

mod changing;
mod hiring;
mod laws;
mod looking;
mod placing;
mod thread;

pub use laws::{line_done_law, state_law};
pub use looking::Met;
pub use thread::Thread;
