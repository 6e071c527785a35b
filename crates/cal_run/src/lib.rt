//! The plain meaning of a run: what a script's threads take, by the script and a journal.
//!
//! A run is read off its journal line by line, without threads: which operations each line had
//! seen, what it was answered, and what each channel takes of it. A lawful journal is one that a
//! run may leave. Nothing is promised of a taker that ran out of memory.
#![tactic(auto)]

mod behind;
mod boards;
mod closing;
mod drafts;
mod filling;
mod laws;
mod line;
mod lines;
mod moment;
mod node_set;
mod note;
mod noting;
mod numbers;
mod operation;
mod outline;
mod paths;
mod placed;
mod placing;
mod plain;
mod plain_counts;
mod plain_run;
mod probes;
mod process;
mod run;
mod services;
mod sink;
mod steps;
mod thread;
mod timers;
mod walking;

pub use boards::operate;
pub use closing::NodeValues;
pub use laws::{known_history_law, lawful_journal_law, own_board_law, plain_journal_law};
pub use lines::{attr_ref, is_process_line, is_shared, line_at, takes};
pub use moment::Moment;
pub use numbers::{EventNumbers, Numbers};
pub use operation::{Operation, operation_of};
pub use plain::plain_journal;
pub use plain_counts::{PlainCounts, count_plain};
pub use plain_run::take_plain_channel;
pub use probes::{Formulas, Prober};
pub use process::Process;
pub use run::{noted_at, take_channel};
pub use services::add_immediates;
pub use sink::{EventValue, ImmediateSink};
pub use steps::{clock_after, is_accepted, is_read, is_taken, reply_to_line, takes_start_reading};
pub use timers::Timers;
