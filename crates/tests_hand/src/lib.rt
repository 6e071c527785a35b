//! Tests of blackboards, alone and over the shared tree, and of small shapes: trees and histories
//! of 1 to 8 slots with arenas of 4 to 40 words, filled until they are full.
//!
//! Each file has tables of worked rows and hand-written answers, or counts what there is room for.
//! It promises nothing that a contract says; it shows what no clause can say, that calls succeed
//! with ample memory.
#![tactic(auto)]

#[cfg(test)]
mod boards;
#[cfg(test)]
mod entries;
#[cfg(test)]
mod histories;
#[cfg(test)]
mod lines;
#[cfg(test)]
mod plain_boards;
#[cfg(test)]
mod room;
#[cfg(test)]
mod threads;
#[cfg(test)]
mod trees;
#[cfg(test)]
mod twelve_lines;
