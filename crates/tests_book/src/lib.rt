//! Tests of the flush cell, over a table that is a count alone.
//!
//! They show what no clause can say: that calls succeed with ample memory, and that a flush is
//! merged where nobody else holds the turn. Each thread ends by itself, after so many flushes,
//! whatever became of them. The sums that are compared were reckoned by hand.
#![tactic(auto)]

#[cfg(test)]
mod refusals;
mod tally;
#[cfg(test)]
mod two;
mod worker;
#[cfg(test)]
mod workers;
