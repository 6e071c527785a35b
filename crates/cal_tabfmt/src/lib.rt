//! The plain lines and the table of an answer, and lines of texts in columns.
//!
//! `expand_text` and `table_text` give exactly the layouts of `specs/`; `append_line` writes a line
//! of columns, which trees have too. `ExpandWriter` takes snapshots over a context, and its text is
//! the plain lines of the records that they mean; it keeps no record, and takes a path up from where
//! it leaves the one before. Nothing is promised of time, nor of a writer that ran out of memory.
#![tactic(auto)]

mod column_lines;
mod ends;
mod grid;
mod held;
mod hierarchy_cell;
mod kept;
mod lines;
mod part;
mod shape;
mod shown_text;
mod snapshot_cells;
mod snapshot_lines;
mod table;
mod table_lines;
mod walk;
mod writer;
mod written;

pub use grid::append_line;
pub use lines::expand_text;
pub use shape::{Shape, shapes};
pub use shown_text::shown_width;
pub use table::table_text;
pub use table_lines::{append_shown, push_headers};
pub use writer::ExpandWriter;
