//! Tests of `watch`, over streams in memory: what both triggers let through, and what is refused.
//!
//! Expected texts are written by hand, as the formats have them. They show what no clause can say,
//! that calls succeed with ample memory.
#![tactic(auto)]

#[cfg(test)]
mod calls;
#[cfg(test)]
mod failing;
#[cfg(test)]
mod faults;
#[cfg(test)]
mod rows;
#[cfg(test)]
mod streams;
#[cfg(test)]
mod triggers;
