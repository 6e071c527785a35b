//! The annotation script: what its bytes say, as plain data; and the types of a run's journal.
//!
//! `read_script` gives the script that bytes mean, or their first fault with its line and kind. What
//! each line makes of what stands before it is `specs/Reading.antt`, which reads as the table of
//! lines and faults does. The layers above run a valid script without a test. Nothing is promised of
//! when memory is there.
#![tactic(auto)]

mod attributes;
mod channels;
mod end;
mod header;
mod hints;
mod journal;
mod kind;
mod laws;
mod lists;
mod names;
mod newline;
mod opening;
mod reader;
mod reading;
mod recent;
mod register;
mod rest;
mod said;
mod script;
mod shapes;
mod tally;
mod thread;
mod ticks;
mod value;
mod value_list;
mod words;

pub use end::{LineEnd, ScriptEnd};
pub use journal::{
    Journal, JournalMarks, JournalText, LineNote, Placed, Reply, RowMark, ThreadNote,
};
pub use kind::ScriptKind;
pub use laws::meaning_law;
pub use reader::Reader;
pub use reading::{read_script, read_script_seeded};
pub use rest::Rest;
pub use script::{Channel, ChannelQuery, Line, ProbeKind, Script};
pub use shapes::{has_process_attribute, history_shape, tree_shape};
pub use ticks::Ticks;
pub use value::read_decimal;
pub use value_list::ValueList;
pub use words::{cut, first_word, one_word, two_words};
