//! Tests of the layers that answer queries: CalQL, kernels, groups and layouts.
//!
//! Each file is one layer's table of worked rows and hand-written answers. It promises nothing
//! that a contract says; it shows what no clause can say, that calls succeed with ample memory.
#![tactic(auto)]

#[cfg(test)]
mod calql;
#[cfg(test)]
mod kernels;
