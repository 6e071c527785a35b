//! Tests of the layers below the program: of values and streams.
//!
//! Each file is one layer's table of worked rows and hand-written answers. It promises nothing
//! that a contract says; it shows what no clause can say, that calls succeed with ample memory.
#![tactic(auto)]

#[cfg(test)]
mod bytes;
#[cfg(test)]
mod clocks;
#[cfg(test)]
mod decimals;
#[cfg(test)]
mod line;
#[cfg(test)]
mod lists;
#[cfg(test)]
mod orders;
#[cfg(test)]
mod properties;
#[cfg(test)]
mod records;
#[cfg(test)]
mod table;
#[cfg(test)]
mod values;
#[cfg(test)]
mod writer;
