//! Tests of runs in threads to their texts: rows whose text no schedule changes, and four, sixteen
//! and sixty-four threads side by side.
//!
//! Expected texts are written by hand, or made by the run of the journal alone. They show what no
//! clause can say, that runs succeed with ample memory. Threads that wait for each other are tested
//! with the top call.
#![tactic(auto)]

#[cfg(test)]
mod many;
#[cfg(test)]
mod rows;
#[cfg(test)]
mod runs;
