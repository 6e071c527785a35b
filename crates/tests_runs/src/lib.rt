//! Tests of runs: by a journal as records with entries of their own, and the plain one as counts.
//!
//! Expected texts, counts and faults are written by hand. They show what no clause can say, that
//! calls succeed with ample memory.
#![tactic(auto)]

#[cfg(test)]
mod runs;
