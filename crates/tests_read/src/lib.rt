//! Tests of the context tree, and of the reader of streams that fills it: nodes, snapshots and their
//! records; worked rows, each of the twelve faults, numbers at their limits, pieces of a stream, and
//! a stream that is cut after each byte.
//!
//! It promises nothing that a contract says; it shows what no clause can say, that calls succeed
//! with ample memory, and that hand-written streams read as the format's page says.
#![tactic(auto)]

#[cfg(test)]
mod context;
#[cfg(test)]
mod cuts;
#[cfg(test)]
mod faults;
#[cfg(test)]
mod grammar;
#[cfg(test)]
mod limits;
#[cfg(test)]
mod pieces;
#[cfg(test)]
mod seeds;
#[cfg(test)]
mod shown;
#[cfg(test)]
mod usual;
