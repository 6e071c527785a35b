//! Tests of the answers of queries: groups, kernels, rows, ORDER BY and columns.
//!
//! Expected rows and columns are written down by hand. They show what no clause can say, that calls
//! succeed with ample memory, and that the definitions are those that a reader of CalQL expects.
#![tactic(auto)]

#[cfg(test)]
mod chains;
#[cfg(test)]
mod folds;
#[cfg(test)]
mod groups;
#[cfg(test)]
mod kernels;
#[cfg(test)]
mod orders;
#[cfg(test)]
mod texts;
