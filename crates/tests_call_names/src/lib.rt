//! Tests of `names`, over streams in memory: what is listed, what is refused, and how.
//!
//! Expected texts are written by hand, as the formats have them. They show what no clause can say,
//! that calls succeed with ample memory.
#![tactic(auto)]

#[cfg(test)]
mod calls;
#[cfg(test)]
mod failing;
#[cfg(test)]
mod faults;
#[cfg(test)]
mod limits;
#[cfg(test)]
mod lists;
#[cfg(test)]
mod odds;
#[cfg(test)]
mod rows;
