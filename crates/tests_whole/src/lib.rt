//! Tests of runs in threads to their records, and of what is counted of them: rows whose records no
//! schedule changes, a run by a real clock, four threads side by side, and the two journals of a
//! script.
//!
//! Expected texts and counts are written by hand. They show what no clause can say, that runs
//! succeed with ample memory.
#![tactic(auto)]

#[cfg(test)]
mod counts;
#[cfg(test)]
mod many;
#[cfg(test)]
mod rows;
#[cfg(test)]
mod runs;
#[cfg(test)]
mod scripts;
#[cfg(test)]
mod timed;
