//! Tests of whole runs in threads: one thread by the script's clock and by a real one, and two,
//! four and sixteen side by side.
//!
//! Expected journals are written by hand. They show what no clause can say, that runs succeed with
//! ample memory; that what a run leaves is a lawful journal is proved, and seen here once more in
//! each of a thousand runs.
#![tactic(auto)]

#[cfg(test)]
mod alone;
#[cfg(test)]
mod runs;
#[cfg(test)]
mod scripts;
#[cfg(test)]
mod together;
