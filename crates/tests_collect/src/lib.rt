//! Tests of tables of threads, of the mailbox, over parts that are numbers, and of the thread that
//! collects tables.
//!
//! They show what no clause can say: that calls succeed with ample memory, and that parts pass from
//! thread to thread through a mailbox with room for one. The rows that eight snapshots come to were
//! reckoned by hand, and tables are compared by their keys.
#![tactic(auto)]

#[cfg(test)]
mod ends;
#[cfg(test)]
mod example;
#[cfg(test)]
mod looks;
#[cfg(test)]
mod mail_ends;
#[cfg(test)]
mod mail_rows;
#[cfg(test)]
mod many;
#[cfg(test)]
mod one;
#[cfg(test)]
mod rows;
#[cfg(test)]
mod shapes;
