//! The canonical text of records: the program's one way to write a `.cali` stream.
//!
//! A `Writer` takes snapshots over a context, and its text is then the `canonical_text` of the
//! records that they mean; `write_records` makes that text whole before its first byte goes out.
//! A writer that ran out of memory refuses from then on. A `Measurer` counts the bytes of that text
//! and keeps none.
#![tactic(auto)]

mod built_in;
mod described;
mod id_fields;
mod interning;
mod lines;
mod measurer;
mod memo;
mod node_writer;
mod page;
mod placing;
mod snapshot_needs;
mod stream;
mod whole;
mod writer;

pub use interning::intern_record;
pub use measurer::{Measure, Measurer};
pub use whole::{WriteEnd, cali_text, write_records};
pub use writer::Writer;
