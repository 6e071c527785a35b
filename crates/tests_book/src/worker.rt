//! A thread that flushes, with its seat at the cell.

use crate::tally::Tally;
use cal_book::FlushSeat;

/// A thread: how many snapshots it has given, how many it has left, and whether it met another
/// thread's turn.
#[derive(Drop)]
pub struct Worker {
    pub seat: FlushSeat<Tally, u32>,
    pub given: u64,
    pub left: u64,
    pub busy: bool,
}
