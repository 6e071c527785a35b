//! Aggregation kernels: what a query or a table keeps of a list of numbers.
//!
//! The layers above use that a kernel is a function of the numbers that were added, that adding a
//! concatenation is merging, that merging is associative and commutative with `start` as its unit,
//! and that `value` is the kernel's definition over those numbers. Only making a row takes memory.
//! How a query finds the numbers of a group isn't said here.
#![tactic(auto)]

mod cell;
mod cells;
mod count;
mod figures;
mod formulas;
mod greatest;
mod kernel;
mod laws;
mod least;
mod made;
mod num;
mod parts;
mod row;
mod sum;

pub use cell::Cell;
pub use cells::Cells;
pub use count::Count;
pub use formulas::{average, percent_total};
pub use greatest::Greatest;
pub use kernel::Kernel;
pub use laws::{
    absent_where_nothing_contributes, ends_are_ends, merged_rows_stay_within,
    rows_merge_in_any_order,
};
pub use least::Least;
pub use made::kernel_of;
pub use num::Num;
pub use row::AggRow;
pub use sum::Sum;
