//! Tests of running threads whose parts are collected, and of whole runs of them.
//!
//! Expected texts are written by hand. They show what no clause can say, that runs succeed with
//! ample memory: `run_live_script` runs its threads by `cal_live`, each with a sender of its own.
#![tactic(auto)]

#[cfg(test)]
mod flushes;
#[cfg(test)]
mod rows;
#[cfg(test)]
mod runs;
