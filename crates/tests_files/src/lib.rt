//! Tests of files by their names: in memory, and of the machine. They promise nothing that a
//! contract says.
#![tactic(auto)]

#[cfg(test)]
mod machine;
#[cfg(test)]
mod memory;
#[cfg(test)]
mod reading;
