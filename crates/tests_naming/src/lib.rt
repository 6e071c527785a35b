//! Tests of names that threads declare, of texts that say so, and of threads that declare the names
//! of a text.
//!
//! It promises nothing that a contract says; it shows what no clause can say, that calls succeed
//! with ample memory, which fault a line has, and what is kept and replied, also where seats declare
//! one name with different contents.
#![tactic(auto)]

#[cfg(test)]
mod one_seat;
#[cfg(test)]
mod orders;
#[cfg(test)]
mod runs;
#[cfg(test)]
mod texts;
#[cfg(test)]
mod threads;
