//! Tests of `live`, over streams and clocks in memory: what it writes, what it refuses, and that
//! flushes of many threads through little room are all merged.
//!
//! Expected texts are written by hand, as the formats have them, or are those of `serial` by the
//! journal that a run left. They show what no clause can say, that calls succeed with ample memory.
#![tactic(auto)]

#[cfg(test)]
mod again;
#[cfg(test)]
mod calls;
#[cfg(test)]
mod failing;
#[cfg(test)]
mod many;
#[cfg(test)]
mod rows;
#[cfg(test)]
mod scripts;
#[cfg(test)]
mod usage;
#[cfg(test)]
mod written;
