//! Tests of the top call, over streams in memory: the rows of each command, each read, write and
//! piece of room failing in turn, spoilt journals, threads that cross, and what a whole command line
//! is served.
//!
//! Expected texts are written by hand, as the formats have them. They show what no clause can say,
//! that calls succeed with ample memory.
#![tactic(auto)]

#[cfg(test)]
mod calls;
#[cfg(test)]
mod crossed;
#[cfg(test)]
mod failing;
#[cfg(test)]
mod generated;
#[cfg(test)]
mod journals;
#[cfg(test)]
mod meetings;
#[cfg(test)]
mod queries;
#[cfg(test)]
mod replays;
#[cfg(test)]
mod rows;
#[cfg(test)]
mod runs;
#[cfg(test)]
mod scripts;
#[cfg(test)]
mod served;
#[cfg(test)]
mod spoilt;
#[cfg(test)]
mod streams;
