//! Tests of queries over many files.
//!
//! It promises nothing that a contract says; it shows what no clause can say, that calls succeed
//! with ample memory.
#![tactic(auto)]

#[cfg(test)]
mod answers;
