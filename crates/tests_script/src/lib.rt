//! Tests of the annotation script: each kind of fault, alone and beside others, each limit, what
//! scripts say, and a generated one.
//!
//! Expected values are written by hand from the tables of docs/FORMATS.md. They show what no clause
//! can say, that calls succeed with ample memory.
#![tactic(auto)]

#[cfg(test)]
mod drawn;
#[cfg(test)]
mod faults;
#[cfg(test)]
mod generated;
#[cfg(test)]
mod limits;
#[cfg(test)]
mod said;
