ghost use Rattle.std.specs.Prelude.{◌≡◌, []};
ghost use Rattle.cal_board.specs.Blackboard.{nothing_open};

use crate::process::Process;
use cal_board::{Board, Readings};
use cal_context::NodeNumber;
use std::alloc::Global;

/// What a run keeps of a thread between two lines: its board, the readings by which the values
/// there were put, the process's board as the thread has seen it, and the reading of its last
/// snapshot. `timed` says that its channel has the timer, which alone needs the readings.
#[derive(Drop)]
pub(crate) struct Thread {
    pub board: Board<NodeNumber>,
    pub readings: Readings,
    pub process: Process,
    pub previous: u64,
    pub timed: bool,
}

impl Thread {
    /// Before the first line, with the start reading.
    pub fn new(alloc: Global, start: u64, timed: bool) -> Self
        ensures board { result.board ≡ nothing_open }
        ensures readings { result.readings ≡ [] }
        ensures process { result.process.board ≡ nothing_open }
        ensures count { result.process.count ≡ 0 }
        ensures previous { result.previous ≡ start }
        ensures timed { result.timed ≡ timed }
    {
        Thread {
            board: Board::new(alloc),
            readings: Readings::new(alloc),
            process: Process::new(alloc),
            previous: start,
            timed,
        }
    }
}
