//! Tests of a thread between two lines, of what threads know of the process, and of what is known
//! when all of them have ended.
//!
//! Two threads go through their lines by hand, in a chosen order, and end. It promises nothing that
//! a contract says; it shows that a caller can meet what the calls ask, and that they succeed with
//! ample memory.
#![tactic(auto)]

#[cfg(test)]
mod ends;
#[cfg(test)]
mod histories;
#[cfg(test)]
mod lines;
#[cfg(test)]
mod phases;
#[cfg(test)]
mod replicas;
#[cfg(test)]
mod scripts;
#[cfg(test)]
mod walkers;
