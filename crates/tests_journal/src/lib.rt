//! Tests of the journal behind a script: each form of line, each fault that a reader finds, and
//! what journals say.
//!
//! Expected values are written by hand. They show what no clause can say, that calls succeed with
//! ample memory.
#![tactic(auto)]

#[cfg(test)]
mod faults;
#[cfg(test)]
mod printed;
#[cfg(test)]
mod said;
