//! Hashers whose secret the input can't know.
//!
//! Whoever hands in a script or a stream chooses its names, values and ids, and so also the keys of
//! maps. A map that hashes by `Seeds` does so by two numbers that are drawn for each run; which keys
//! meet in it can't be told from outside. The layers above use that equal keys have one hash. That a
//! hash spreads well, and that nobody can find keys that meet, isn't promised.
#![tactic(auto)]

mod hasher;
mod reading;
mod seeds;

pub use hasher::SeededHasher;
pub use seeds::Seeds;
