//! Tests of schedules, and of the worlds behind them: of the two journals of two threads that share
//! a phase, and of the journals that runs in threads leave.
//!
//! Expected events are written by hand; a world's records are compared with those of the run. They
//! show what no clause can say, that calls succeed with ample memory.
#![tactic(auto)]

#[cfg(test)]
mod runs;
#[cfg(test)]
mod schedules;
#[cfg(test)]
mod scripts;
#[cfg(test)]
mod worlds;
