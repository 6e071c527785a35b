//! Tests of the layers that share memory between threads: the words of records, and the tables in
//! which they stand.
//!
//! Each file is one layer's table of worked rows and hand-written answers. It promises nothing
//! that a contract says; it shows what no clause can say, that calls succeed with ample memory.
#![tactic(auto)]

#[cfg(test)]
mod held;
#[cfg(test)]
mod histories;
#[cfg(test)]
mod shared_trees;
#[cfg(test)]
mod tables;
#[cfg(test)]
mod trees;
#[cfg(test)]
mod words;
