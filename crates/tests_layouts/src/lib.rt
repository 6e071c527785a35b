//! Tests of the layouts of an answer.
//!
//! Each file is one layout's table of worked rows and hand-written answers. It promises nothing
//! that a contract says; it shows what no clause can say, that calls succeed with ample memory.
#![tactic(auto)]

#[cfg(test)]
mod answers;
#[cfg(test)]
mod lines;
#[cfg(test)]
mod lists;
#[cfg(test)]
mod objects;
#[cfg(test)]
mod tables;
#[cfg(test)]
mod trees;
