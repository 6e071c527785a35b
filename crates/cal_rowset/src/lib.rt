//! The answer of a query: its rows, the columns in which they are shown, and what a cell is.
//!
//! The engine makes an `Answer` and the layouts print it: a `Rowset`, whose rows have entries of
//! their own, or a `SnapshotRowset`, whose rows are snapshots of a context. All use what `specs/`
//! says once: the hierarchy of a row, which is what the name `path` means, the values of a name, and
//! the cell that they make. Which rows or columns a query has is the engine's part.
#![tactic(auto)]

mod answer;
mod cell;
mod cells;
mod hierarchy;
mod names;
mod path;
mod row_cells;
mod rows;
mod rowset;
mod shown_row;
mod snapshot_list;
mod snapshot_row;
mod snapshot_rowset;
mod step;
mod walk;

pub use answer::Answer;
pub use cell::{Cell, Content};
pub use cells::Cells;
pub use hierarchy::is_of_hierarchy;
pub use names::{Names, is_path};
pub use path::find_links;
pub use rows::Rows;
pub use rowset::{Column, Rowset};
pub use shown_row::ShownRow;
pub use snapshot_list::SnapshotList;
pub use snapshot_rowset::SnapshotRowset;
