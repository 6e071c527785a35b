//! The reader of `.cali` streams: what the lines of a stream mean, or its first fault.
#![tactic(auto)]

mod built_in;
mod end;
mod ids;
mod in_turn;
mod keys;
mod kind;
mod known;
mod known_value;
mod lately;
mod laws;
mod line;
mod node_line;
mod node_texts;
mod nodes;
mod number_at;
mod place;
mod put_value;
mod reader;
mod recent;
mod record_line;
mod shared;
mod sort;
mod spare;
mod stream;
mod stream_reader;
mod usual;
mod usual_columns;
mod usual_node;
mod usual_row;
mod usual_values;
mod whole;

pub use end::StreamEnd;
pub use kind::StreamKind;
pub use laws::{one_reading, readings_stay};
pub use reader::Reader;
pub use stream_reader::StreamReader;
pub use whole::read_records;
