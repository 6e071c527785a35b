//! The lines of an input and its first fault, and the stream's line grammar: tokens, fields and
//! escapes.
//!
//! The layers above use that `next_line` goes through the lines of an input, that lines which are
//! read one after another make something exactly where they have no first fault
//! (`first_fault_law`), that a `Splitter` gives exactly the fields that a line spells, and leaves
//! each text in the line that has no escape, and that what `escape` writes is one spelling of the
//! text, which reads back as it. Nothing is promised of what a field means.
#![tactic(auto)]

mod escaping;
mod field;
mod field_end;
mod fields;
mod first_faults;
mod laws;
mod lines;
mod piece;
mod scanning;
mod spans;
mod splitter;
mod splitting;
mod unescaping;

pub use escaping::escape;
pub use field::Field;
pub use field_end::FieldEnd;
pub use fields::{FieldPieces, Fields};
pub use first_faults::first_fault_law;
pub use laws::{
    escaped_spells_the_text, lines_end_at_newlines, one_list_of_fields, one_text,
    written_fields_are_read,
};
pub use lines::{ended_line, next_line};
pub use piece::Piece;
pub use splitter::Splitter;
pub use splitting::split_fields;
pub use unescaping::unescape;
