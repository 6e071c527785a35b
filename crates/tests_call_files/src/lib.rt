//! Tests of `files`, over files in memory and over those of the machine: what is written, what is
//! refused, and how.
//!
//! Expected texts are written by hand, as the formats have them. They show what no clause can say,
//! that calls succeed with ample memory.
#![tactic(auto)]

#[cfg(test)]
mod answers;
#[cfg(test)]
mod calls;
#[cfg(test)]
mod faults;
#[cfg(test)]
mod machine;
#[cfg(test)]
mod many;
